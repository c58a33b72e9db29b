// The data shards of a group, held or restored.
#![tactic(auto)]

pub mod found;
