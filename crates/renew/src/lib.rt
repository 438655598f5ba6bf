// What is known of the rules, brought up to date after a plan was applied: the removed rules' places are taken out of all rows, and
// the hub alone is surveyed anew.
#![tactic(auto)]

pub mod less;
pub mod places;
pub mod renew;
