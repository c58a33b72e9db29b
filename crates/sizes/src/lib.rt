// How long the lent parts must be: refusal 7.
#![tactic(auto)]

ghost use Rattle.std.specs.Prelude.{◌≡◌};
ghost use Rattle.protocol.specs.Ranges.{mss};
ghost use Rattle.sizes.specs.Sizes.{enough, enough_to_flush};

use protocol::{Protocol, Settings};

// The lengths of the parts lent to every call: bytes of the two pools, records, and entries of the ack list.
#[derive(Clone, Copy)]
pub struct Lengths {
    pub send: usize,
    pub receive: usize,
    pub table: usize,
    pub acks: usize,
}

// Whether these parts are as long as stated, for any mtu that a block can show.
#[tactic(auto, unfolding(crate::specs::Sizes::enough))]
pub fn enough(settings: Settings, lent: Lengths) -> bool
    ensures { result ≡ enough (mss settings) lent }
{
    let mss = settings.mss();
    (Protocol::SEND_SLOTS * mss <= lent.send)
        & (Protocol::RECEIVE_SLOTS * mss <= lent.receive)
        & (Protocol::SEND_SLOTS <= lent.table)
        & (2 * Protocol::ACKS_MOST <= lent.acks)
}

// Whether the parts lent to a flush are: those, its output and its lengths.
#[tactic(auto, unfolding(crate::specs::Sizes::enough_to_flush))]
pub fn enough_to_flush(settings: Settings, lent: Lengths, output: usize, lengths: usize) -> bool
    ensures { result ≡ enough_to_flush (mss settings) lent output lengths }
{
    enough(settings, lent)
        & (Protocol::OUTPUT_LEAST <= output)
        & (Protocol::LENGTHS_LEAST <= lengths)
}
