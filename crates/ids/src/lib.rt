// The ids in a sheet: whether they are distinct (SPECIFICATION 4.5) and below their counters (4.6).
#![tactic(auto)]

pub mod ids;
pub mod lists;
pub mod survey;
