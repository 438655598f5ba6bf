// What collides where a satellite's alternative is spliced into a planned alternative (SPECIFICATION 8.6, 8.7): names of
// labels, names that actions and predicates refer to, and names that are bound.
#![tactic(auto)]

pub mod clash;
pub mod mark;
pub mod names;
pub mod quiet;
mod references;
