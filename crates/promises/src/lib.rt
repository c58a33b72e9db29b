// What the public calls promise. Definitions only.
#![tactic(auto)]
