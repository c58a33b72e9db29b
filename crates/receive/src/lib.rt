// The receiving half hears the segments of a datagram that was accepted, its lists in lent arrays: acknowledgements are noted,
// segments are kept and become ready, a tell is wanted.
#![tactic(auto)]

ghost use Rattle.std.specs.Prelude.{◌≡◌, ◌||◌, ℕ, ◌≤◌, eqb, length};
ghost use Rattle.protocol.specs.Ranges.{mss};
ghost use Rattle.datagram.specs.StepLaws.{Begun};
ghost use Rattle.control.specs.Views.{is_set};
ghost use Rattle.arriving.specs.Arrivals.{Same, Whole};
ghost use Rattle.keeping.specs.Keeping.{SameSlots};
ghost use Rattle.receive.specs.Halves.{half_in, Sound, HearsAll};
ghost use Rattle.receive.specs.Pushes.{Noted, Marked, Pushable, Heard};

use arriving::Incoming;
use keeping::{Slots, in_window, keep};
use protocol::{Protocol, Settings};
use wire::Header;

// Notes the push's number and time behind the pairs noted so far; none is noted past 256 pairs.
fn note(acks: &mut [u32], count: usize, next: u32, h: Header) -> usize
    requires { 512 ≤ length acks.old }
    ensures { Noted next h acks.old count acks.new result }
{
    if in_window(next, h.sn) && count < Protocol::ACKS_MOST {
        let at = 2 * count;
        acks[at] = h.sn;
        acks[at + 1] = h.ts;
        return count + 1;
    }
    count
}

// A push: an ack is noted, the segment is kept, and segments become ready.
fn push(half: &mut Incoming, slots: &mut Slots, s: &[u8], start: usize, h: Header, acks: &mut [u32])
    requires { Whole half.old × Pushable (half_in half.old) slots.old.marks.now slots.old.from slots.old.mss s.now start h
        slots.old.pool.now acks.old }
    ensures same { Same half.old half.new × SameSlots slots.old slots.new }
    ensures whole { Whole half.new }
    ensures hears { Heard (half_in half.old) slots.old.marks.now slots.old.mss s.now start h slots.old.pool.now acks.old
        (half_in half.new) slots.new.from slots.new.pool.now acks.new }
{
    half.arrival.acks = note(acks, half.arrival.acks, half.arrival.expected, h);
    keep(half, slots, s, start, h);
}

// Whether a tell is wanted: it was, or the segment asks for one.
fn asked(tell: u8, cmd: u8) -> u8
    ensures { is_set result ≡ (is_set tell || eqb cmd 83) }
{
    if cmd == Protocol::WINDOW_ASK { 1 } else { tell }
}

// The segments of an accepted datagram are heard, one after the other. A push: an ack is noted, the segment is kept, and
// segments become ready. An ask: a tell is wanted. Acks and tells change nothing here. The marks are those of the slots held before.
pub fn hear(
    half: &mut Incoming,
    settings: Settings,
    s: &[u8],
    marks: &[u8; 256],
    pool: &mut [u8],
    acks: &mut [u32],
)
    requires { Whole half.old × Marked (half_in half.old) marks.now 0
        × Sound (half_in half.old) (mss settings) acks.old pool.old
        × ((n : ℕ) × Begun settings.conv (mss settings) s.now n) }
    ensures same { Same half.old half.new }
    ensures whole { Whole half.new }
    ensures hears { HearsAll settings s.now (half_in half.old) acks.old pool.old (half_in half.new) acks.new pool.new }
{
    let mut slots = Slots {
        marks,
        from: 0,
        mss: settings.mss(),
        pool,
    };
    let mut at: usize = 0;
    // Read, so that it is known to be a number of 32 bits.
    let _next = half.arrival.expected;
    while let Some(segment) = datagram::segment_at(s, at) {
        let header = segment.header;
        at = segment.next;
        if header.cmd == Protocol::PUSH {
            push(half, &mut slots, s, segment.start, header, acks);
        } else {
            half.arrival.tell = asked(half.arrival.tell, header.cmd);
        }
    }
}
