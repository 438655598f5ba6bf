// Sets of rules as rows of bits, reachability over them, and the cycles in the definition's order (SPECIFICATION 6.6 to 6.8).
// That the cycles are the textbook's, the largest sets of several rules that reach each other, in the order of their least
// ids, is the theorem `cycles_listed` of `laws`.
#![tactic(auto)]

pub mod cycles;
pub mod reach;
pub mod rows;
mod trim;
