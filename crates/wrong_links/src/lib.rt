// Wrong links, tried against what the public calls promise: definitions and proofs, in specs/.
#![tactic(auto)]
