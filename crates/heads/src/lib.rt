// Planned alternatives drawn without fresh ids: the settled list read while the new sheet is composed behind it, the heads of
// alternatives, and elements as they stand.
#![tactic(auto)]

pub mod head;
pub mod read;
pub mod same;
