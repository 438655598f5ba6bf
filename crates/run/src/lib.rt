// The loop over plans of one unit (SPECIFICATION 5), apart from the entries.
#![tactic(auto)]

pub mod state;
pub mod turn;
pub mod unit;
