// One step of the substitution (SPECIFICATION 8): the corner of a planned alternative, and what takes the place of an alternative, decided
// whole before anything is written.
#![tactic(auto)]

pub mod corner;
pub mod cycle;
pub mod decide;
pub mod step;
