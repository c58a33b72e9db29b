// Theorems about whole lists of calls, from what the public calls promise: definitions and proofs, in specs/.
#![tactic(auto)]
