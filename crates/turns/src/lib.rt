// One turn of the substitution (SPECIFICATION 8.1, 8.10): the next alternative is taken, and settled, or a step is made on it.
#![tactic(auto)]

pub mod limits;
pub mod state;
pub mod taken;
pub mod task;
pub mod turn;
