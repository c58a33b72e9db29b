// The sending half hears a datagram in place: windows and round trips, what is acknowledged, and skips.
#![tactic(auto)]

ghost use Rattle.std.specs.Prelude.{◌≡◌, cond, not, ◌&&◌, map, ℕ, ◌^◌, ◌≤◌, ◌<◌, ltb, take, length, get_or};
ghost use Rattle.protocol.specs.Ranges.{mss};
ghost use Rattle.protocol.specs.Serial.{is_before};
ghost use Rattle.datagram.specs.StepLaws.{Begun};
ghost use Rattle.lists.specs.Joining.{joined};
ghost use Rattle.lists.specs.Acknowledging.{filter};
ghost use Rattle.words.specs.Words.{outstanding_in};
ghost use Rattle.records.specs.Tables.{blank};
ghost use Rattle.acknowledge.specs.Flights.{JoinedIn, InOrder, HearsAll, view};
ghost use Rattle.acknowledge.specs.Furthest.{further_by};
ghost use Rattle.acknowledge.specs.Hearing.{stays_by, Concerns, timed_by, skip_record};

use control::Flight;
use protocol::{Protocol, Settings, serial};
use retransmission::outstanding;
use timing::{Record, RoundTrip};
use wire::Header;

// Whether the segment with that number stays outstanding after a segment is heard: its una, if not after snd_nxt, is not after the
// number, and no ack names it.
fn stays(next: u32, h: Header, number: u32) -> bool
    ensures { result ≡ stays_by next h number }
{
    let passed = !serial::after(h.una, next) & serial::after(h.una, number);
    !(passed | ((h.cmd == Protocol::ACK) & (number == h.sn)))
}

// Whether a segment acknowledges an outstanding number: these are from snd_una on, before snd_nxt, and 32 at most. Its una is after
// snd_una and at most snd_nxt, or it is an ack that names a number from snd_una on, before snd_nxt.
fn concerns(h: Header, una: u32, next: u32) -> bool
    ensures { Concerns h una next result }
{
    let ahead = serial::difference(h.una, una);
    let span = serial::difference(next, una);
    let named = serial::difference(h.sn, una) < span;
    ((0 < ahead) & (ahead <= span)) | ((h.cmd == Protocol::ACK) & named)
}

// The number of the first of n outstanding segments; with none, snd_nxt.
fn first_number(n: usize, first: Record, next: u32) -> u32
    ensures { result ≡ cond (ltb 0 n) first.number next }
{
    if 0 < n { first.number } else { next }
}

// The first n outstanding segments without those that a segment acknowledges: words, transmissions and records side by side.
fn remaining(
    words: &mut [u32; 32],
    transmissions: &mut [u8; 32],
    records: &mut [Record; 32],
    n: usize,
    next: u32,
    h: Header,
) -> usize
    requires { n ≤ 32 }
    ensures { JoinedIn words.new transmissions.new result records.new
        (filter (stays_by next h)
        (joined (outstanding_in words.old transmissions.old n) records.old))
        × (length records.new ≡ 32) }
{
    let mut j = 0;
    for i in 0..n {
        if !stays(next, h, records[i].number) {
            continue;
        }
        words[j] = words[i];
        transmissions[j] = transmissions[i];
        records[j] = records[i];
        j += 1;
    }
    j
}

// The round trip after a segment is heard: if it is an ack and current - ts is 0 or more, that is a sample.
fn timed(rtt: RoundTrip, settings: Settings, current: u32, h: Header) -> RoundTrip
    ensures { result ≡ timed_by settings current h rtt }
{
    if h.cmd == Protocol::ACK {
        if serial::due(current, h.ts) {
            return rtt.sampled(settings, serial::difference(current, h.ts));
        }
    }
    rtt
}

// The furthest number that acks have named so far, after one more segment: the first ack's number, replaced by each later one that is
// after it.
fn further(furthest: Option<u32>, h: Header) -> Option<u32>
    ensures { result ≡ further_by furthest h }
{
    if h.cmd != Protocol::ACK {
        return furthest;
    }
    if let Some(number) = furthest {
        if !serial::after(h.sn, number) {
            return furthest;
        }
    }
    Some(h.sn)
}

// Whether the number counts: it is not before snd_una and is before snd_nxt.
fn counts(una: u32, next: u32, number: u32) -> bool
    ensures { result ≡ (not (is_before number una) && is_before number next) }
{
    !serial::before(number, una) & serial::before(number, next)
}

// The record with one skip more if its number is before the given one.
fn skipped(old: Record, number: u32) -> Record
    ensures { result ≡ skip_record number old }
{
    if serial::before(old.number, number) {
        outstanding::skipped(old)
    } else {
        old
    }
}

// The records, where each of the first n whose number is before the given one has one skip more.
fn skip_before(records: &mut [Record; 32], n: usize, number: u32)
    requires { n ≤ 32 }
    ensures { (take n records.new ≡ map (skip_record number) (take n records.old))
        × (length records.new ≡ 32) }
{
    for i in 0..n {
        records[i] = skipped(records[i], number);
    }
}

// A record's number is below 2^32.
fn number_fits(record: Record)
    ensures { «record».number < 2 ^ 32 }
{}

// So is the number of each; at run time there is nothing to do.
fn numbers_fit(records: &[Record; 32])
    ensures { (k : ℕ) → k < length records.now → (get_or records.now k blank).number < 2 ^ 32 }
{
    for record in records {
        number_fits(*record);
    }
}

// The segments of an accepted datagram are heard, one after the other. Then, if the furthest number counts, each outstanding
// segment before it gets one skip.
pub fn hear(
    flight: Flight,
    records: &mut [Record; 32],
    settings: Settings,
    current: u32,
    outstanding: &mut [u32; 32],
    transmissions: &mut [u8; 32],
    s: &[u8],
) -> Flight
    requires { InOrder (view flight outstanding.old transmissions.old records.old)
        × (length records.old ≡ 32)
        × ((n : ℕ) × Begun settings.conv (mss settings) s.now n) }
    ensures { HearsAll settings current s.now
        (view flight outstanding.old transmissions.old records.old)
        (view result outstanding.new transmissions.new records.new)
        × (length records.new ≡ 32) }
{
    numbers_fit(records);
    let mut f = flight;
    let mut furthest = None;
    let mut at: usize = 0;
    while let Some(segment) = datagram::segment_at(s, at) {
        let header = segment.header;
        at = segment.next;
        furthest = further(furthest, header);
        f.window = header.wnd;
        f.rtt = timed(f.rtt, settings, current, header);
        if concerns(header, f.una, f.next) {
            f.outstanding = remaining(
                outstanding,
                transmissions,
                records,
                f.outstanding,
                f.next,
                header,
            );
            f.una = first_number(f.outstanding, records[0], f.next);
        }
    }
    if let Some(number) = furthest {
        if counts(f.una, f.next, number) {
            skip_before(records, f.outstanding, number);
        }
    }
    f
}
