// Any k frames of a group give its datagrams: definitions and proofs, in specs/.
#![tactic(auto)]
