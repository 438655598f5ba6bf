// How large the planned list of a hub is once it is written: its fresh ids of each sort, its words.
#![tactic(auto)]

pub mod measure;
pub mod sums;
pub mod tally;
