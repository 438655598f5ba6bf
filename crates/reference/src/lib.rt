// The Rust as a function on trees: definitions only, in specs/.
#![tactic(auto)]
