// What comes from the sheet into the planned list: the hub's own alternatives, and a satellite's in place of a call.
#![tactic(auto)]

pub mod bring;
pub mod options;
mod places;
pub mod splice;
