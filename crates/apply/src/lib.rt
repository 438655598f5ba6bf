// Applying a plan (SPECIFICATION 11): sizes first, then the new sheet.
#![tactic(auto)]

pub mod apply;
pub mod judge;
pub mod left;
