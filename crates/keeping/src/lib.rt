// A push is kept, the lists of the receiving half in lent parts. It goes to the lowest free slot: marks are those of the slots held
// when the call began, and slots are only taken, lowest first, so the search goes on behind the last one taken.
#![tactic(auto)]

ghost use Rattle.std.specs.Prelude.{◌≡◌, ◌&&◌, ◌+◌, ◌≤◌, ◌<◌, eqb, ltb};
ghost use Rattle.protocol.specs.Protocol.{receive_window};
ghost use Rattle.protocol.specs.Serial.{minus};
ghost use Rattle.arriving.specs.Arrivals.{lists_in, Same, Whole};
ghost use Rattle.keeping.specs.Pushing.{is_in_window, held_at};
ghost use Rattle.keeping.specs.Keeping.{Storable, Stored, Found, Keepable, Kept, SameSlots};

use arriving::Incoming;
use lists::Held;
use protocol::{Protocol, serial};
use wire::Header;

// The slots of the receive pool: the marks of those held, where the search for free ones goes on, and how long each is.
#[derive(Drop)]
pub struct Slots<'a> {
    pub marks: &'a [u8; 256],
    pub from: usize,
    pub mss: usize,
    pub pool: &'a mut [u8],
}

impl<'a> Slots<'a> {
    // The push's payload is stored in the first free slot from `from` on, and held there.
    fn store(&mut self, s: &[u8], start: usize, h: Header) -> Held
        requires { Storable self.old.marks.now self.old.from self.old.mss s.now start h self.old.pool.now × (h.len < 65536) }
        ensures same { SameSlots self.old self.new × (self.new.from ≡ result.slot + 1) }
        ensures held { result ≡ held_at result.slot h }
        ensures stored { Stored self.old.marks.now self.old.from self.old.mss s.now start h self.old.pool.now result.slot self.new.pool.now }
    {
        let slot = marks::free_from(self.marks, self.from);
        pools::copy_part(s, start, h.len as usize, self.pool, slot * self.mss);
        self.from = slot + 1;
        Held {
            slot: slot as u16,
            len: h.len as u16,
            fragment: h.frg,
        }
    }
}

// Whether sn is before rcv_nxt + 128.
pub fn in_window(next: u32, sn: u32) -> bool
    ensures { result ≡ is_in_window next sn }
{
    serial::before(sn, serial::sum(next, Protocol::RECEIVE_WINDOW))
}

// Whether a push can be ready at once: it is the one expected next, and fewer than 128 are ready.
fn is_next(next: u32, ready: usize, sn: u32) -> bool
    ensures { result ≡ (eqb (minus sn next) 0 && ltb ready receive_window) }
{
    (serial::difference(sn, next) == 0) & (ready < 128)
}

// Where among those that wait a push goes, if it is kept.
fn index_for(numbers: &[u32; 128], n: usize, next: u32, sn: u32) -> Option<usize>
    requires { n ≤ 128 }
    ensures { Found next sn numbers.now n result }
{
    let ahead = in_window(next, sn) & !serial::before(sn, next);
    if !ahead {
        return None;
    }
    let offset = serial::difference(sn, next);
    let Err(i) = words::place(&numbers[..n], next, offset) else {
        return None;
    };
    Some(i)
}

// A push is kept if it is new and in the window: at the end of those that are ready, with those that wait for it, or among
// those that wait.
pub fn keep(half: &mut Incoming, slots: &mut Slots, s: &[u8], start: usize, h: Header)
    requires { Whole half.old
        × Keepable (lists_in half.old) slots.old.marks.now slots.old.from slots.old.mss s.now start h slots.old.pool.now }
    ensures same { Same half.old half.new × SameSlots slots.old slots.new }
    ensures whole { Whole half.new }
    ensures keeps { Kept half.old.arrival (lists_in half.old) slots.old.mss s.now start h slots.old.pool.now slots.old.marks.now
        half.new.arrival (lists_in half.new) slots.new.pool.now slots.new.from }
{
    let next = half.arrival.expected;
    let n = half.arrival.ready;
    let m = half.arrival.waiting;
    if is_next(next, n, h.sn) {
        let held = slots.store(s, start, h);
        words::append(half.ready, n, held.word());
        half.arrival.expected = serial::sum(next, 1);
        half.arrival.ready = n + 1;
        half.advance();
        return;
    }
    let numbers = &mut *half.numbers;
    if let Some(i) = index_for(numbers, m, next, h.sn) {
        let held = slots.store(s, start, h);
        words::insert_at(half.waiting, m, i, held.word());
        words::insert_at(numbers, m, i, h.sn);
        half.arrival.waiting = m + 1;
    }
}
