// Every record of a sheet is looked at (SPECIFICATION 4.4); what is found are the rules' ids, names and places.
#![tactic(auto)]

mod lent;
mod records;
pub mod rules;
