// The state of a link, and the segments that it holds, as lines of text.
ghost use Rattle.std.specs.Prelude.{◌≡◌, map};
ghost use Rattle.notation.specs.Puts.{Put};
ghost use Rattle.words.specs.Words.{unpack, paired, outstanding_at, waiting_at};
ghost use Rattle.transcript.specs.Lines.{each, state_numbers, state_line, entry, held_entry};
ghost use Rattle.transcript.specs.Lines.{record_at, sent_entry, outstanding_entry, waiting_entry, held_line};

use crate::row;
use control::Link;
use lists::{Held, Outstanding, Waiting};
use notation::{front, put};
use timing::Record;

// snd_una snd_nxt rcv_nxt current peer_window srtt rttvar rto probe_wait probe_due ask tell dead acks queued outstanding
// ready waiting next_flush updated cwnd ssthresh incr
fn numbers(link: Link) -> [u64; 23]
    ensures { result ≡ state_numbers link }
{
    [
        u64::from(link.flight.una),
        u64::from(link.flight.next),
        u64::from(link.arrival.expected),
        u64::from(link.clock.current),
        u64::from(link.flight.window),
        u64::from(link.flight.rtt.smoothed),
        u64::from(link.flight.rtt.variation),
        u64::from(link.flight.rtt.timeout),
        u64::from(link.clock.probe.wait),
        u64::from(link.clock.probe.due),
        u64::from(link.clock.ask != 0),
        u64::from(link.arrival.tell != 0),
        u64::from(link.clock.dead != 0),
        link.arrival.acks as u64,
        link.flight.queued as u64,
        link.flight.outstanding as u64,
        link.arrival.ready as u64,
        link.arrival.waiting as u64,
        u64::from(link.clock.next_flush),
        u64::from(link.clock.updated != 0),
        u64::from(link.flight.congestion.window),
        u64::from(link.flight.congestion.threshold),
        u64::from(link.flight.congestion.allowance),
    ]
}

// The line of `state`.
pub fn state(out: &mut [u8], at: usize, link: Link) -> usize
    ensures { Put out.old at (state_line link) result out.new }
{
    let all = numbers(link);
    let behind = put::bytes(out, at, b"state");
    let end = row(out, behind, &all);
    put::byte(out, end, b'\n')
}

// A held segment: a letter for its list, and its numbers.
fn entry(out: &mut [u8], at: usize, letter: u8, numbers: &[u64]) -> usize
    ensures { Put out.old at (entry letter numbers.now) result out.new }
{
    let behind = put::byte(out, at, b' ');
    let end = put::byte(out, behind, letter);
    row(out, end, numbers)
}

// A queued or ready segment.
fn held_entry(out: &mut [u8], at: usize, letter: u8, h: Held) -> usize
    ensures { Put out.old at (held_entry letter h) result out.new }
{
    let all = [u64::from(h.slot), u64::from(h.len), u64::from(h.fragment)];
    entry(out, at, letter, &all)
}

// Queued or ready segments.
fn held(out: &mut [u8], at: usize, letter: u8, words: &[u32]) -> usize
    ensures { Put out.old at (each (held_entry letter) (map unpack words.now)) result out.new }
{
    let mut here = at;
    for word in words {
        here = held_entry(out, here, letter, Held::from(*word));
    }
    here
}

// The record at a slot; a blank one where there is none.
fn record_at(table: &[Record], slot: u16) -> Record
    ensures { result ≡ record_at table.now slot }
{
    let blank = Record {
        number: 0,
        due: 0,
        timeout: 0,
        skips: 0,
    };
    table.get(usize::from(slot)).copied().unwrap_or(blank)
}

// An outstanding segment with its record.
fn outstanding_entry(out: &mut [u8], at: usize, o: Outstanding, r: Record) -> usize
    ensures { Put out.old at (sent_entry o r) result out.new }
{
    let h = o.held;
    let all = [
        u64::from(h.slot),
        u64::from(h.len),
        u64::from(h.fragment),
        u64::from(o.transmissions),
        u64::from(r.number),
        u64::from(r.due),
        u64::from(r.timeout),
        u64::from(r.skips),
    ];
    entry(out, at, b'o', &all)
}

fn outstanding(
    out: &mut [u8],
    at: usize,
    words: &[u32],
    transmissions: &[u8],
    table: &[Record],
) -> usize
    ensures { Put out.old at (each (outstanding_entry table.now) (paired outstanding_at words.now transmissions.now)) result out.new }
{
    let mut here = at;
    for (word, transmissions) in words.iter().zip(transmissions) {
        let o = Outstanding {
            held: Held::from(*word),
            transmissions: *transmissions,
        };
        here = outstanding_entry(out, here, o, record_at(table, o.held.slot));
    }
    here
}

// A waiting segment.
fn waiting_entry(out: &mut [u8], at: usize, w: Waiting) -> usize
    ensures { Put out.old at (waiting_entry w) result out.new }
{
    let h = w.held;
    let all = [
        u64::from(w.number),
        u64::from(h.slot),
        u64::from(h.len),
        u64::from(h.fragment),
    ];
    entry(out, at, b'w', &all)
}

fn waiting(out: &mut [u8], at: usize, words: &[u32], numbers: &[u32]) -> usize
    ensures { Put out.old at (each waiting_entry (paired waiting_at words.now numbers.now)) result out.new }
{
    let mut here = at;
    for (word, number) in words.iter().zip(numbers) {
        let w = Waiting {
            number: *number,
            held: Held::from(*word),
        };
        here = waiting_entry(out, here, w);
    }
    here
}

// The line of `held`: segments queued, outstanding, ready and waiting.
pub fn segments(out: &mut [u8], at: usize, link: Link, table: &[Record]) -> usize
    ensures { Put out.old at (held_line link table.now) result out.new }
{
    let sent = link.flight.outstanding;
    let waiters = link.arrival.waiting;
    let a = put::bytes(out, at, b"held");
    let b = held(out, a, b'q', front(&link.queued, link.flight.queued));
    let c = outstanding(
        out,
        b,
        front(&link.outstanding, sent),
        front(&link.transmissions, sent),
        table,
    );
    let d = held(out, c, b'r', front(&link.ready, link.arrival.ready));
    let e = waiting(
        out,
        d,
        front(&link.waiting, waiters),
        front(&link.waiting_numbers, waiters),
    );
    put::byte(out, e, b'\n')
}
