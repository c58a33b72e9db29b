// The records of the outstanding segments, with their numbers, in one pass: what is carried from record to record is the least offset
// from snd_una that the next number may have.
ghost use Rattle.std.specs.Prelude.{◌≡◌, take, Some};
ghost use Rattle.checking.specs.Tests.{record_fits, flight_fits, least_after, carried_after, flown_by};

use crate::numbers::timeout_fits;
use control::Flight;
use protocol::{Protocol, Settings, serial};
use timing::Record;

// Skips at most 255, and the timeout.
fn record_fits(record: Record, mode: u8) -> bool
    ensures { result ≡ record_fits mode «record» }
{
    (record.skips <= Protocol::SKIPS_MOST) & timeout_fits(mode, record.timeout)
}

// One record more: its number is at least `least` after snd_una, the first is snd_una, and each is before snd_nxt. Then that least for the
// next one.
pub fn next_least(least: usize, found: Record, settings: Settings, flight: Flight) -> Option<usize>
    ensures { result ≡ least_after settings.mode flight.una flight.next least found }
{
    let offset = serial::difference(found.number, flight.una);
    let far = offset as usize;
    let limit = serial::difference(flight.next, flight.una);
    let begins = (0 < least) | (found.number == flight.una);
    let fits = begins & (least <= far) & (offset < limit) & record_fits(found, settings.mode);
    fits.then_some(far + 1)
}

// What is carried past one record more: nothing, from one that does not fit on.
pub fn carry(
    carried: Option<usize>,
    found: Record,
    settings: Settings,
    flight: Flight,
) -> Option<usize>
    ensures { result ≡ carried_after settings.mode flight.una flight.next carried found }
{
    next_least(carried?, found, settings, flight)
}

// What the pass says: all fit, snd_una and snd_nxt are at most 32 apart, and with no record they are the same.
pub fn flown(carried: Option<usize>, flight: Flight) -> bool
    ensures { result ≡ flown_by flight.una flight.next carried }
{
    let Some(least) = carried else {
        return false;
    };
    let limit = serial::difference(flight.next, flight.una);
    (limit <= Protocol::SEND_WINDOW) & ((0 < least) | (flight.next == flight.una))
}

// The outstanding segments' numbers and records: from snd_una on up to snd_nxt, at most 32 apart, the first being snd_una.
pub fn flight_fits(records: &[Record; 32], settings: Settings, flight: Flight) -> bool
    ensures { result ≡ flight_fits settings.mode flight.una flight.next
        (take flight.outstanding records.now) }
{
    let mut carried = Some(0);
    for record in &records[..flight.outstanding.min(32)] {
        carried = carry(carried, *record, settings, flight);
    }
    flown(carried, flight)
}
