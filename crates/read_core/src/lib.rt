// Reading a message, telling its size, and placing its first segment, over a block where it stands that has passed the checks of 7 and 13.
#![tactic(auto)]

ghost use Rattle.std.specs.Prelude.{◌≡◌, true, List, ℕ, ◌+◌, ◌*◌, ◌≤◌, ◌<◌, ◌^◌, length, take, drop};
ghost use Rattle.protocol.specs.Protocol.{receive_slots};
ghost use Rattle.words.specs.Words.{held_in};
ghost use Rattle.timing.specs.declared.Record.{Record};
ghost use Rattle.session.specs.Reading.{reading, telling, showing};
ghost use Rattle.control.specs.Views.{counts_fit, state_of};
ghost use Rattle.promises.specs.Answers.{count_outcome};
ghost use Rattle.promises.specs.Cores.{ReadCore};
ghost use Rattle.arriving.specs.Arrivals.{Same, Fits};
ghost use Rattle.arriving.specs.Arrivals as arriving;
ghost use Rattle.deliver.specs.Messages.{InSlots, InPool, fitting_of};
ghost use Rattle.read_core.specs.Messages.{Readable, ReadKeeps, ReadMessage};
ghost use Rattle.promises.specs.Promises.{place_of, LiesAt};
ghost use Rattle.read_core.specs.Places.{front_outcome, PlaceIs};

use answers::Answer;
use arriving::Incoming;
use control::Link;
use lists::Held;

// A part of the receive pool, by numbers.
#[derive(Clone, Copy)]
pub struct Place {
    pub start: usize,
    pub count: usize,
}

// Reading, of the receiving half.
fn read_message(half: &mut Incoming, mss: usize, pool: &[u8], buffer: &mut [u8]) -> Answer<usize>
    requires { arriving.Whole half.old × Fits half.old.arrival
        × InPool mss pool.now (held_in half.old.ready.now half.old.arrival.ready) }
    ensures same { Same half.old half.new }
    ensures reads { ReadMessage (fitting_of (held_in half.old.ready.now half.old.arrival.ready) (length buffer.old))
        half.old.arrival mss half.old.ready.now half.old.waiting.now half.old.numbers.now pool.now buffer.old
        result half.new.arrival half.new.ready.now half.new.waiting.now half.new.numbers.now buffer.new }
{
    let n = half.arrival.ready;
    let ready = &mut *half.ready;
    let size = deliver::fitting(ready, n, buffer.len())?;
    deliver::take(half, mss, pool, buffer);
    Ok(size)
}

// Reading the message at the front: 9, then 7 for the buffer.
pub fn read_checked(link: &mut Link, pool: &[u8], buffer: &mut [u8]) -> Answer<usize>
    requires { Readable link.old pool.now }
    ensures reads { (records : List Record) (acks : List ℕ) → ReadCore (reading (state_of link.old records acks) pool.now (length buffer.old))
        link.old records acks buffer.old result link.new buffer.new }
    ensures keeps { ReadKeeps link.old link.new }
{
    let mss = link.settings.mss();
    let mut half = Incoming {
        arrival: link.arrival,
        ready: &mut link.ready,
        waiting: &mut link.waiting,
        numbers: &mut link.waiting_numbers,
    };
    let answer = read_message(&mut half, mss, pool, buffer);
    let arrival = half.arrival;
    link.arrival = arrival;
    answer
}

// The size of the message at the front: 9 where none can be read.
pub fn size_checked(link: &Link) -> Answer<usize>
    requires { counts_fit link.now ≡ true }
    ensures { (records : List Record) (acks : List ℕ) → count_outcome result ≡ telling (state_of link.now records acks) }
{
    deliver::front_size(&link.ready[..link.arrival.ready])
}

// Where the front segment's payload lies; 0 and 0 where no message can be read.
fn front_place(mss: usize, ready: &[u32; 128], n: usize) -> Place
    requires { (n ≤ 128) × InSlots mss (held_in ready.now n) × (mss < 2 ^ 16) }
    ensures { PlaceIs (place_of (front_outcome mss (held_in ready.now n))) (receive_slots * mss) result }
{
    if deliver::readable(&ready[..n]) {
        let held = Held::from(ready[0]);
        Place {
            start: held.slot as usize * mss,
            count: held.len as usize,
        }
    } else {
        Place { start: 0, count: 0 }
    }
}

// Where in the receive pool the part lies that showing gives; 0 and 0 where no message can be read.
pub fn locate_checked(link: &Link) -> Place
    requires { (pool : List ℕ) × Readable link.now pool }
    ensures { (pool : List ℕ) → Readable link.now pool → (records : List Record) (acks : List ℕ)
        → PlaceIs (place_of (showing (state_of link.now records acks))) (length pool) result }
{
    front_place(link.settings.mss(), &link.ready, link.arrival.ready)
}

// The part of the pool at a place.
pub fn part_at<'a>(pool: &'a [u8], place: Place) -> &'a [u8]
    requires { place.start + place.count ≤ length pool.now }
    ensures { LiesAt place.start pool.entry.ref_ptr result.ref_ptr
        × (result.now ≡ take place.count (drop place.start pool.now)) }
{
    let start = place.start;
    let end = start + place.count;
    &pool[start..end]
}
