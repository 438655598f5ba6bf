// The decision for a cycle as far as it rests on rules and rows (SPECIFICATION 7, 8.10, 9.6): its hub, whether the satellites can
// be inlined, the budget, what may be removed, and which rules are preserved.
#![tactic(auto)]

pub mod budget;
pub mod calls;
pub mod corner;
pub mod cycle;
pub mod hub;
pub mod inlinable;
pub mod preserved;
pub mod removal;
