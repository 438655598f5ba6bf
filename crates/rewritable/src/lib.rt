// Whether the planned list of a hub is directly left-recursive (SPECIFICATION 10), and the rules that it calls.
#![tactic(auto)]

mod items;
pub mod judge;
mod walk;
