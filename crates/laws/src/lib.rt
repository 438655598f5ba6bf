// What is proved of the definition in `reference`: theorems only, in specs/.
#![tactic(auto)]
