// The frames given to the reader: each checked by itself, and where the shard of each place is held.
#![tactic(auto)]

pub mod held;
pub mod scan;
