// The substitution in the planned list (SPECIFICATION 8), as the definition in `reference` has it.
#![tactic(auto)]

pub mod over;
pub mod size;
pub mod turning;
