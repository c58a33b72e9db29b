// The state of the bench: a link, its table of records, and how much of each part it is lent.
#![tactic(auto)]

pub mod poke;

ghost use Rattle.std.specs.Prelude.{◌≡◌, true, false, ◌≤◌, set};
ghost use Rattle.bench.specs.Fields.{counts_of, IsNew, Jumped};

use congestion::Congestion;
use control::{Arrival, Clock, Flight, Link};
use protocol::Settings;
use timing::{ProbeClock, Record, RoundTrip};

// How many elements of each part are lent. More than a part has lends all of it.
#[derive(Clone, Copy)]
pub struct Lent {
    pub send: usize,
    pub receive: usize,
    pub records: usize,
    pub acks: usize,
    pub output: usize,
    pub lengths: usize,
}

#[derive(Clone, Copy)]
pub struct Bench {
    pub link: Link,
    pub table: [Record; 128],
    pub lent: Lent,
    // An opening has been accepted.
    pub opened: bool,
    // The last command was an accepted opening.
    pub fresh: bool,
}

// More than any part has.
const ALL: usize = 4294967295;

// A block before any opening.
fn blank() -> Link {
    Link {
        settings: Settings {
            conv: 0,
            mtu: 0,
            interval: 0,
            mode: 0,
            threshold: 0,
            stream: 0,
            congestion: 0,
        },
        flight: Flight {
            una: 0,
            next: 0,
            rtt: RoundTrip {
                smoothed: 0,
                variation: 0,
                timeout: 0,
            },
            window: 0,
            congestion: Congestion {
                window: 0,
                threshold: 0,
                allowance: 0,
            },
            queued: 0,
            outstanding: 0,
        },
        arrival: Arrival {
            expected: 0,
            tell: 0,
            ready: 0,
            waiting: 0,
            acks: 0,
        },
        clock: Clock {
            probe: ProbeClock { wait: 0, due: 0 },
            current: 0,
            next_flush: 0,
            ask: 0,
            dead: 0,
            updated: 0,
        },
        queued: [0; 128],
        outstanding: [0; 32],
        transmissions: [0; 32],
        ready: [0; 128],
        waiting: [0; 128],
        waiting_numbers: [0; 128],
    }
}

impl Bench {
    // Not opened yet, every part lent whole, every record zero.
    pub fn new() -> Self
        ensures { IsNew result }
    {
        let record = Record {
            number: 0,
            due: 0,
            timeout: 0,
            skips: 0,
        };
        Bench {
            link: blank(),
            table: [record; 128],
            lent: Lent {
                send: ALL,
                receive: ALL,
                records: ALL,
                acks: ALL,
                output: ALL,
                lengths: ALL,
            },
            opened: false,
            fresh: false,
        }
    }

    // With another link, after a command that is no accepted opening.
    pub fn with_link(self, link: Link) -> Bench
        ensures { result ≡ record { link = link; table = self.table; lent = self.lent; opened = self.opened; fresh = false } }
    {
        Bench {
            link,
            fresh: false,
            ..self
        }
    }

    // With another link and another table.
    pub fn with_table(self, link: Link, table: [Record; 128]) -> Bench
        ensures { result ≡ record { link = link; table = table; lent = self.lent; opened = self.opened; fresh = false } }
    {
        Bench {
            link,
            table,
            fresh: false,
            ..self
        }
    }

    // Just opened.
    pub fn with_opened(self, link: Link) -> Bench
        ensures { result ≡ record { link = link; table = self.table; lent = self.lent; opened = true; fresh = true } }
    {
        Bench {
            link,
            opened: true,
            fresh: true,
            ..self
        }
    }
}

// The counts with another one for a part: 0 send pool, 1 receive pool, 2 records, 3 ack list, 4 output, 5 lengths.
pub fn lend(mut lent: Lent, part: u32, count: u32) -> Lent
    ensures { part ≤ 5 → counts_of result ≡ set (counts_of lent) part count }
{
    let n = count as usize;
    match part {
        0 => lent.send = n,
        1 => lent.receive = n,
        2 => lent.records = n,
        3 => lent.acks = n,
        4 => lent.output = n,
        _ => lent.lengths = n,
    }
    lent
}

// A link just opened with other numbers: snd_una and snd_nxt, and rcv_nxt.
pub fn jump(mut link: Link, snd: u32, rcv: u32) -> Link
    ensures { Jumped link snd rcv result }
{
    link.flight.una = snd;
    link.flight.next = snd;
    link.arrival.expected = rcv;
    link
}

// Another item at an index; nothing past the end.
pub fn replace<T: Copy>(list: &mut [T], i: usize, item: T)
    ensures { list.new ≡ set list.old i item }
{
    if i < list.len() {
        list[i] = item;
    }
}
