// Slots of a pool, as the list of those used: definitions and laws, in specs/.
#![tactic(auto)]
