// The sheet that a plan leaves, composed in the work area (SPECIFICATION 11).
#![tactic(auto)]

mod body;
pub mod compose;
mod last;
mod rules;
