// From what the core of a call leaves to what the call promises: the records of the outstanding segments are gathered from the
// lent table before it, and put back after it. Laws only.
#![tactic(auto)]
