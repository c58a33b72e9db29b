// The control block with one number changed, to try refusal 13.
ghost use Rattle.std.specs.Prelude.{◌≡◌, ◌≤◌, ◌<◌, ltb, get_or, set};
ghost use Rattle.words.specs.Words.{unpack};
ghost use Rattle.bench.specs.Fields.{IsField, Poked, held_fields};
ghost use Rattle.bench.specs.Fields.{stored_in, HasField, holds, Reworded, HeldChanged};

use crate::replace;
use control::Link;
use lists::Held;

// The block with another value in a field. The fields have the numbers of the script's `poke`.
pub fn poke(mut link: Link, field: u32, value: u32) -> Link
    ensures { IsField field → Poked link field value result }
{
    let half = (value % 65536) as u16;
    let byte = (value % 256) as u8;
    let flag = u8::from(value != 0);
    match field {
        0 => link.settings.conv = value,
        1 => link.settings.mtu = half,
        2 => link.settings.mode = byte,
        3 => link.settings.interval = half,
        4 => link.settings.threshold = byte,
        5 => link.flight.una = value,
        6 => link.flight.next = value,
        7 => link.arrival.expected = value,
        8 => link.clock.current = value,
        9 => link.flight.window = half,
        10 => link.flight.rtt.smoothed = value,
        11 => link.flight.rtt.variation = value,
        12 => link.flight.rtt.timeout = value,
        13 => link.clock.probe.wait = value,
        14 => link.clock.probe.due = value,
        15 => link.clock.ask = flag,
        16 => link.arrival.tell = flag,
        17 => link.clock.dead = flag,
        18 => link.arrival.acks = value as usize,
        19 => link.settings.stream = byte,
        20 => link.settings.congestion = byte,
        21 => link.clock.next_flush = value,
        22 => link.clock.updated = flag,
        23 => link.flight.congestion.window = value,
        24 => link.flight.congestion.threshold = value,
        _ => link.flight.congestion.allowance = value,
    }
    link
}

// A held segment with another slot, length or fragment.
fn held(mut held: Held, field: u32, value: u32) -> Held
    requires { held.slot < 256 }
    ensures { (result.slot < 256) × (field < 3 → held_fields result ≡ set (held_fields held) field (stored_in 0 field value)) }
{
    match field {
        0 => held.slot = (value % 256) as u16,
        1 => held.len = (value % 65536) as u16,
        _ => held.fragment = (value % 256) as u8,
    }
    held
}

// The same of its word.
fn word(word: u32, field: u32, value: u32) -> u32
    ensures { field < 3 → held_fields (unpack result) ≡ set (held_fields (unpack word)) field (stored_in 0 field value) }
{
    held(Held::from(word), field, value).word()
}

// How many segments a list holds: 0 queued, 1 outstanding, 2 ready, 3 waiting.
fn list_count(link: Link, list: u32) -> usize
    ensures { list ≤ 3 → result ≡ get_or (holds link) list 0 }
{
    match list {
        0 => link.flight.queued,
        1 => link.flight.outstanding,
        2 => link.arrival.ready,
        _ => link.arrival.waiting,
    }
}

// Whether a list of the block holds a segment at that index.
pub fn is_held(link: Link, list: u32, index: u32) -> bool
    ensures { list ≤ 3 → result ≡ ltb index (get_or (holds link) list 0) }
{
    (index as usize) < list_count(link, list)
}

// A field of the segment at an index changed; nothing past the end.
fn reword(list: &mut [u32], i: usize, field: u32, value: u32)
    ensures { Reworded list.old i field value list.new }
{
    if i < list.len() {
        list[i] = word(list[i], field, value);
    }
}

// The block with a field of a held segment changed. Field 3 stands beside the word: the transmissions of an outstanding
// segment, the number of a waiting one.
pub fn hold(mut link: Link, list: u32, index: u32, field: u32, value: u32) -> Link
    ensures { HasField list field → HeldChanged link list index field value result }
{
    let i = index as usize;
    match (list, field) {
        (0, _) => reword(&mut link.queued, i, field, value),
        (1, 3) => replace(&mut link.transmissions, i, (value % 256) as u8),
        (1, _) => reword(&mut link.outstanding, i, field, value),
        (2, _) => reword(&mut link.ready, i, field, value),
        (_, 3) => replace(&mut link.waiting_numbers, i, value),
        _ => reword(&mut link.waiting, i, field, value),
    }
    link
}
