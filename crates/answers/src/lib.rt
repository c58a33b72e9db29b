// What a call answers: that it is done, with what it counts or names, or why it is refused.
#![tactic(auto)]

use protocol::Refusal;

// `()` of opening, sending and taking in; `usize` of a flush (datagrams written), of reading and of telling the size (bytes of the
// message); `Option<usize>` of an update (`None`: it does not flush); `u32` of a check (the time at which the next update is wanted).
pub type Answer<T> = Result<T, Refusal>;
