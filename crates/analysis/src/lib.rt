// What is found out about a grammar before anything is planned (SPECIFICATION 6), as the definition in `reference` has it.
// By theorems of `laws` these are the textbook's notions: a rule is nullable exactly if it derives the empty string
// (`empty_derivation`); left corners are those of the derivations (`left_corners_listed`, and `textbook_corners` for the
// textbook's reading); the cycles are the largest sets of several rules that reach each other, in the order of their least
// ids (`cycles_listed`). What plans leave of them is `facts_stay`.
#![tactic(auto)]

pub mod corners;
pub mod known;
pub mod leaf;
pub mod names;
pub mod rounds;
pub mod ruled;
pub mod survey;
pub mod walk;
