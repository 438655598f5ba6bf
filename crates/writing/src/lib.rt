// Words written into lent buffers, and the counters from which fresh ids are taken.
#![tactic(auto)]

pub mod copy;
pub mod counters;
