// The lowest layer of the code: words in bytes, the numbers that have a meaning in a sheet, and where the parts of a tree
// that stands in a sheet begin and end.
#![tactic(auto)]

pub mod form;
pub mod numbers;
pub mod sheet;
pub mod visit;
pub mod walk;
pub mod words;
