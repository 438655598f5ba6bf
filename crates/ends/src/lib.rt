// Where what stands in a sheet ends, for code that passes it without a look inside.
#![tactic(auto)]

pub mod ends;
