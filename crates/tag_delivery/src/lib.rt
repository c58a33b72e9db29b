// Tag messages over the link, from what the link's calls and the table's calls promise: a theorem, in specs/.
#![tactic(auto)]
