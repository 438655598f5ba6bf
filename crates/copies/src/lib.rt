// Copies of what stands in a sheet, with fresh ids all the way down and an entry of the trail for each.
#![tactic(auto)]

pub mod copy;
mod parts;
pub mod pen;
