// The planned list of a hub, in the lent work area: settled alternatives from one end, a stack of replacements from the other.
// Contracts speak of lists of planned alternatives; where they stand is known here and in `splices` alone.
#![tactic(auto)]

pub mod halves;
pub mod hand;
pub mod list;
pub mod read;
pub mod record;
pub mod shown;
