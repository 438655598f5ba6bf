// The whole decision for a cycle, and the search for the first cycle with a plan (SPECIFICATION 5, 7 to 10), as the definition in
// `reference` has them.
#![tactic(auto)]

pub mod facts;
pub mod ground;
pub mod plan;
pub mod search;
