// What is proved of reach, cycles and entries in `reference`, of derivation nothing, for `laws` and for code: laws only, in specs/.
#![tactic(auto)]
