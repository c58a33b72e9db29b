// Demand 3 with receivers that are fed through the parity reader: definitions and proofs, in specs/.
#![tactic(auto)]
