// Computed examples which show that demand 3 speaks of something: definitions and proofs, in specs/.
#![tactic(auto)]
