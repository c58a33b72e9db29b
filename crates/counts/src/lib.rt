// No code: that C gets counts as they are, whatever block and parts a call is given.
#![tactic(auto)]
