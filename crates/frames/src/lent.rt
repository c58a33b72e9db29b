// The tests that the writer and the reader share.
ghost use Rattle.std.specs.Prelude.{◌≡◌, ◌*◌, ◌≤◌, ◌<◌, leb, true, false, length, MatchResult};
ghost use Rattle.wire.specs.LittleEndian.{AllBytes};
ghost use Rattle.frames.specs.Lists.{add_up};
ghost use Rattle.frames.specs.Outcomes.{lent_ok, length_ok, lengths_ok};

use crate::Refusal;
use protocol::Protocol;

// The lengths add up to no more than size.
fn adds_up(size: usize, lengths: &[u16]) -> bool
    ensures { result ≡ leb (add_up lengths.now) size }
{
    let mut left = size;
    for n in lengths.iter() {
        let n = usize::from(*n);
        if left < n {
            return false;
        }
        left -= n;
    }
    true
}

// Parts, datagrams or frames, packed one behind the other, and the length of each.
#[derive(Clone, Copy)]
pub struct Packed<'a> {
    pub bytes: &'a [u8],
    pub lengths: &'a [u16],
    pub ghost whole: { add_up lengths.now ≤ length bytes.now },
    pub ghost small: { AllBytes bytes.now },
    pub ghost fits: { length bytes.now < 18446744073709551616 },
}

impl<'a> Packed<'a> {
    // Packed bytes are as many as their lengths say, and there is room for n parts of `each` bytes, and for n lengths.
    pub fn new(
        bytes: &'a [u8],
        lengths: &'a [u16],
        n: usize,
        each: usize,
        room: usize,
        slots: usize,
    ) -> Result<Packed<'a>, Refusal>
        requires { n * each < 1099511627776 }
        ensures { MatchResult result
            (λ p. (lent_ok (length bytes.now) lengths.now n each room slots ≡ true) × (p.bytes.now ≡ bytes.now) × (p.lengths.now ≡ lengths.now))
            (λ r. (lent_ok (length bytes.now) lengths.now n each room slots ≡ false) × (r ≡ Refusal.ShortPart)) }
    {
        if adds_up(bytes.len(), lengths) && n * each <= room && n <= slots {
            Ok(Packed { bytes, lengths })
        } else {
            Err(Refusal::ShortPart)
        }
    }
}

// A header's size to mtu.
fn length_ok(mtu: usize, n: u16) -> bool
    ensures { result ≡ length_ok mtu n }
{
    (Protocol::HEADER..=mtu).contains(&usize::from(n))
}

// Each length is 24 to mtu.
pub fn lengths_ok(mtu: usize, lengths: &[u16]) -> bool
    ensures { result ≡ lengths_ok mtu lengths.now }
{
    lengths.iter().all(|n| length_ok(mtu, *n))
}
