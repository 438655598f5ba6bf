// The draft of a new sheet in the work area: its rules so far, and the rules of the old sheet that stay.
#![tactic(auto)]

pub mod draft;
pub mod kept;
