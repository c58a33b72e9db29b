// Queued segments get numbers, in place: their words move behind those of the outstanding segments.
#![tactic(auto)]

ghost use Rattle.std.specs.Prelude.{◌≡◌, ◌++◌, ◌+◌, ◌≤◌, length};
ghost use Rattle.session.specs.Flushing.{numbered};
ghost use Rattle.words.specs.Words.{held_in};
ghost use Rattle.numbering.specs.Sents.{sent_in, SentFront};
ghost use Rattle.numbering.specs.Numbering.{count_of, Numberable, Numbers};

use control::Flight;
use protocol::serial;
use timing::Record;

// How many of the queued segments are numbered, with this window.
fn numbered_count(queued: usize, window: u32, next: u32, una: u32) -> usize
    ensures { result ≡ count_of queued window next una }
{
    let apart = serial::difference(next, una);
    queued.min(window.saturating_sub(apart) as usize)
}

// The record of a segment that gets this number: it was never sent.
fn numbered_record(number: u32) -> Record
    ensures { result ≡ record { number = number; due = 0; timeout = 0; skips = 0 } }
{
    Record {
        number,
        due: 0,
        timeout: 0,
        skips: 0,
    }
}

// The first k queued segments, numbered from `next` on, stand behind the n outstanding ones.
fn number_first(
    queued: &[u32; 128],
    k: usize,
    outstanding: &mut [u32; 32],
    transmissions: &mut [u8; 32],
    n: usize,
    records: &mut [Record; 32],
    next: u32,
)
    requires { n + k ≤ 32 }
    ensures { SentFront outstanding.new transmissions.new records.new (n + k)
        (sent_in outstanding.old transmissions.old records.old n
        ++ numbered next (held_in queued.now k)) }
{
    let mut number = next;
    for i in 0..k {
        outstanding[n + i] = queued[i];
        transmissions[n + i] = 0;
        records[n + i] = numbered_record(number);
        number = serial::sum(number, 1);
    }
}

// Queued segments get numbers while this window allows.
pub fn number(
    flight: Flight,
    window: u32,
    queued: &mut [u32; 128],
    outstanding: &mut [u32; 32],
    transmissions: &mut [u8; 32],
    records: &mut [Record; 32],
) -> Flight
    requires { Numberable flight window queued.old outstanding.old transmissions.old records.old }
    ensures { Numbers flight window queued.old outstanding.old transmissions.old
        records.old result queued.new outstanding.new transmissions.new records.new }
{
    let k = numbered_count(flight.queued, window, flight.next, flight.una);
    if k == 0 {
        return flight;
    }
    number_first(
        queued,
        k,
        outstanding,
        transmissions,
        flight.outstanding,
        records,
        flight.next,
    );
    words::drop_first(queued, flight.queued, k);
    Flight {
        next: serial::sum(flight.next, k as u32),
        queued: flight.queued - k,
        outstanding: flight.outstanding + k,
        ..flight
    }
}
