// Sending a message: its fragments take the lowest free slots of the send pool and are queued, in place. In stream mode the last queued
// segment is filled first.
#![tactic(auto)]

ghost use Rattle.std.specs.Prelude.{◌≡◌, Bool, cond, ◌+◌, ◌-◌, ◌*◌, ◌<◌, ◌≤◌, length, drop};
ghost use Rattle.protocol.specs.Protocol.{send_slots};
ghost use Rattle.session.specs.State.{State};
ghost use Rattle.session.specs.Cutting.{segment_count, pieces};
ghost use Rattle.session.specs.Sending.{place, filled, sending};
ghost use Rattle.session.specs.FillLaws.{room_of};
ghost use Rattle.words.specs.Words.{held_in};
ghost use Rattle.enqueue.specs.Enqueueing.{Marked, Stored, Fillable, Fills, Placeable, Places, Enqueueable, PartsOf, Same, Follows};

use answers::Answer;
use lists::Held;
use protocol::{Protocol, Refusal};

// The sending half in lent parts: its mode, the largest payload, the queued segments and how many they are, and the send pool with
// the marks of the slots held.
#[derive(Drop)]
pub struct Outgoing<'a> {
    pub stream: bool,
    pub mss: usize,
    pub queued: &'a mut [u32; 128],
    pub count: usize,
    pub marks: &'a [u8; 128],
    pub pool: &'a mut [u8],
}

// How many new segments so many bytes make: in stream mode none of no bytes.
fn segment_count(stream: bool, mss: usize, len: usize) -> usize
    requires { 0 < mss }
    ensures { result ≡ segment_count stream mss len }
{
    if len == 0 {
        return if stream { 0 } else { 1 };
    }
    (len - 1) / mss + 1
}

// The payload of a message that begins at `at` is stored in a slot. The answer is its length.
fn store(mss: usize, message: &[u8], at: usize, pool: &mut [u8], slot: usize) -> usize
    requires { (at ≤ length message.now) × (slot < send_slots) × (send_slots * mss ≤ length pool.old) }
    ensures { Stored mss message.now at slot pool.old result pool.new }
{
    let len = mss.min(message.len() - at);
    pools::copy_part(message, at, len, pool, slot * mss);
    len
}

// How many bytes the last of n queued segments can take in: none in message mode, and where it is full or none is queued.
fn last_room(stream: bool, mss: usize, queued: &[u32; 128], n: usize) -> usize
    requires { n ≤ 128 }
    ensures { result ≡ room_of stream mss (held_in queued.now n) }
{
    if !stream || n == 0 {
        return 0;
    }
    let last = Held::from(queued[n - 1]);
    mss.saturating_sub(last.len as usize)
}

// The number of a fragment that has so many behind it: in stream mode 0.
fn fragment_of(stream: bool, left: usize) -> usize
    ensures { result ≡ cond stream 0 left }
{
    if stream { 0 } else { left }
}

impl<'a> Outgoing<'a> {
    // Where the last queued segment has room, it takes the first k bytes of a message behind its payload, and fragment number 0.
    fn fill(&mut self, room: usize, message: &[u8], k: usize)
        requires { Fillable self.old.mss self.old.queued.now self.old.count room self.old.pool.now message.now k }
        ensures same { Same self.old self.new × (self.new.count ≡ self.old.count) }
        ensures fills { (stream : Bool) → room ≡ room_of stream self.old.mss (held_in self.old.queued.now self.old.count) →
            Fills (filled stream self.old.mss (held_in self.old.queued.now self.old.count) self.old.pool.now message.now) self.old.count
            self.new.queued.now self.new.pool.now }
    {
        if room == 0 {
            return;
        }
        let at = self.count - 1;
        let last = Held::from(self.queued[at]);
        let len = last.len as usize;
        pools::copy_part(
            message,
            0,
            k,
            self.pool,
            last.slot as usize * self.mss + len,
        );
        let filled = Held {
            len: (len + k) as u16,
            fragment: 0,
            ..last
        };
        self.queued[at] = filled.word();
    }

    // The first `count` payloads of a message from an index on take the lowest free slots, behind those that are queued.
    fn place(&mut self, message: &[u8], from: usize, count: usize)
        requires { (from ≤ length message.now)
            × Placeable self.old.mss self.old.queued.now self.old.count self.old.marks.now self.old.pool.now count }
        ensures same { Same self.old self.new × (self.new.count ≡ self.old.count + count) }
        ensures places { (h : Marked self.old.marks.now (send_slots - count)) →
            Places (place self.old.stream self.old.mss h.now self.old.pool.now (pieces self.old.mss count (drop from message.now)))
            self.old.queued.now self.old.count self.new.queued.now (self.old.count + count) self.new.pool.now }
    {
        let stream = self.stream;
        let mss = self.mss;
        let n = self.count;
        let marks = self.marks;
        let mut slot = 0;
        let mut at = from;
        for i in 0..count {
            slot = marks::free_from(marks, slot);
            let len = store(mss, message, at, self.pool, slot);
            let held = Held {
                slot: slot as u16,
                len: len as u16,
                fragment: fragment_of(stream, count - 1 - i) as u8,
            };
            self.queued[n + i] = held.word();
            slot += 1;
            at += len;
        }
        self.count = n + count;
    }

    // A message is sent, m segments being outstanding: 10, then 11, of what is left to cut; else it is queued.
    pub fn enqueue(&mut self, m: usize, message: &[u8]) -> Answer<()>
        requires { Enqueueable self.old.mss self.old.queued.now self.old.count m self.old.marks.now self.old.pool.now }
        ensures same { Same self.old self.new }
        ensures follows { (s : State) → PartsOf s self.old.stream self.old.mss self.old.queued.now self.old.count m self.old.marks.now →
            Follows (sending s self.old.pool.now message.now) self.old.queued.now self.old.count self.old.pool.now
            result self.new.count self.new.queued.now self.new.pool.now }
    {
        let n = self.count;
        let queued = &mut *self.queued;
        let room = last_room(self.stream, self.mss, queued, n);
        let first = message.len().min(room);
        let rest = message.len() - first;
        if Protocol::FRAGMENTS_MOST * self.mss < rest {
            return Err(Refusal::LongMessage);
        }
        let count = segment_count(self.stream, self.mss, rest);
        if Protocol::SEND_SLOTS < m + n + count {
            return Err(Refusal::NoFreeSlots);
        }
        self.fill(room, message, first);
        self.place(message, first, count);
        Ok(())
    }
}
