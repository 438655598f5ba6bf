// The planned list drawn: the hub's new alternatives behind the list from which they are read, and their entries in the trail
// (SPECIFICATION 11).
#![tactic(auto)]

mod items;
pub mod list;
