// Theorems about whole lists of calls: definitions and proofs, in specs/.
#![tactic(auto)]
