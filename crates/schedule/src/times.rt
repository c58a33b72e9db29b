// The schedule of flushes, moved on by each update and asked by each check.
ghost use Rattle.std.specs.Prelude.{◌≡◌, min, take};
ghost use Rattle.std.specs.List.{fold};
ghost use Rattle.schedule.specs.Schedules.{is_astray, corrected, started, following, updated, ahead, dues_of, earliest, named};

use crate::{Schedule, Updated};
use protocol::{Protocol, serial};
use timing::Record;

// Whether now is 10,000 or more past the next flush time, or more than that before it.
fn is_astray(now: u32, next: u32) -> bool
    ensures { result ≡ is_astray now next }
{
    let apart = serial::read_signed(serial::difference(now, next));
    (Protocol::CLOCK_JUMP as i64 <= apart) | (apart < 0 - Protocol::CLOCK_JUMP as i64)
}

// The next flush time, or now where it is astray.
fn corrected(now: u32, next: u32) -> u32
    ensures { result ≡ corrected now next }
{
    if is_astray(now, next) { now } else { next }
}

// The next flush time; now before the first update.
fn started(schedule: Schedule, now: u32) -> u32
    ensures { result ≡ started schedule now }
{
    if schedule.made { schedule.next } else { now }
}

// The time of the flush after one at now.
fn following(now: u32, next: u32, interval: u32) -> u32
    ensures { result ≡ following now next interval }
{
    let later = serial::sum(next, interval);
    if serial::due(now, later) {
        serial::sum(now, interval)
    } else {
        later
    }
}

// How long it is from now until a time is due.
fn ahead(now: u32, time: u32) -> u32
    ensures { result ≡ ahead now time }
{
    if serial::due(now, time) {
        0
    } else {
        serial::difference(time, now)
    }
}

// How long it is from t until the first of these is due, and no longer than most.
fn earliest(t: u32, most: u32, records: &[Record]) -> u32
    ensures { result ≡ fold (λ wait r. min wait (ahead t r.due)) most records.now }
{
    records
        .iter()
        .fold(most, |wait, record| wait.min(ahead(t, record.due)))
}

impl Schedule {
    // The schedule after an update at now, and whether the flush runs.
    pub fn update(self, now: u32, interval: u16) -> Updated
        ensures { result ≡ updated self now interval }
    {
        let next = corrected(now, started(self, now));
        if serial::due(now, next) {
            let later = following(now, next, u32::from(interval));
            return Updated {
                schedule: Schedule {
                    next: later,
                    made: true,
                },
                flushes: true,
            };
        }
        Updated {
            schedule: Schedule { next, made: true },
            flushes: false,
        }
    }

    // The time at which the next update is wanted: the next flush, or the first due time of n outstanding segments, at most
    // one interval away; t itself before the first update.
    pub fn check(self, t: u32, interval: u16, records: &[Record; 32], n: usize) -> u32
        ensures { result ≡ named self t interval (dues_of (take n records.now)) }
    {
        if !self.made {
            return t;
        }
        let next = corrected(t, self.next);
        let most = u32::from(interval).min(ahead(t, next));
        serial::sum(t, earliest(t, most, &records[..n.min(32)]))
    }
}
