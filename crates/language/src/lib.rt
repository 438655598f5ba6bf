// What a grammar derives, its left corners, paths and cycles: definitions and laws only, in specs/.
#![tactic(auto)]
