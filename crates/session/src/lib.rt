// The state of a link and what each call does to it: definitions, in specs/.
#![tactic(auto)]
