// Una and ack numbers in whatever order: definitions and proofs, in specs/.
#![tactic(auto)]
