// The listing (SPECIFICATION 16.2): the text of an answer, written into a lent buffer as far as it fits.
#![tactic(auto)]

mod entries;
mod lines;
mod rules;
mod text;
mod walk;
pub mod whole;
