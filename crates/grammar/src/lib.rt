// What a grammar is and how a sheet holds it: definitions and laws only, in specs/.
#![tactic(auto)]
