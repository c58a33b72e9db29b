// One good round trip is enough: definitions and proofs, in specs/.
#![tactic(auto)]
