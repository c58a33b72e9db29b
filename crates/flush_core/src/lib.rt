// The core of a flush and of an update, over a block where it stands that has passed the checks of 7 and 13, with the records of its
// outstanding segments.
#![tactic(auto)]

pub mod parts;

ghost use Rattle.flush_core.specs.Flushes.{Flushable, Wrote, Runs, FlushKeeps};

use control::{Arrival, Link};
use parts::Plan;
use timing::Record;

// How many datagrams were written, none by an update that is not due, and the number of outstanding segments whose records are to be put
// back into the table: all of them, or 0 where none was sent.
#[derive(Clone, Copy)]
pub struct Flushed {
    pub written: Option<usize>,
    pub changed: usize,
}

// A flush.
fn flush_now(
    link: &mut Link,
    records: &mut [Record; 32],
    pool: &[u8],
    acks: &[u32],
    t: u32,
    output: &mut [u8],
    lengths: &mut [u16],
) -> Flushed
    requires { Flushable link.old records.old pool.now acks.now output.old lengths.old }
    ensures writes { Wrote link.old records.old pool.now acks.now t output.old lengths.old result link.new records.new output.new
        lengths.new }
    ensures keeps { FlushKeeps link.old link.new }
{
    let plan = Plan::new(link, t);
    let window = parts::window_of(link.settings, link.flight);
    let flown = numbering::number(
        link.flight,
        window,
        &mut link.queued,
        &mut link.outstanding,
        &mut link.transmissions,
        records,
    );
    let written = transmit::write(
        plan.flush,
        acks,
        link.arrival.acks,
        plan.ask,
        plan.tell,
        &link.outstanding,
        &mut link.transmissions,
        records,
        flown.outstanding,
        pool,
        output,
        lengths,
    );
    let told = written.told;
    link.flight = parts::after_losses(link.settings, flown, window, told.fast, told.late);
    link.arrival = Arrival {
        tell: 0,
        acks: 0,
        ..link.arrival
    };
    link.clock = parts::moved(link.clock, plan.probe, told.dead, t);
    Flushed {
        written: Some(written.count),
        changed: parts::changed(told.sent, link.flight.outstanding),
    }
}

// A flush, or where it is paced an update. An update moves the schedule on, and flushes only where it is due; else the current time
// changes, and that alone.
pub fn flush_checked(
    link: &mut Link,
    records: &mut [Record; 32],
    pool: &[u8],
    acks: &[u32],
    paced: bool,
    t: u32,
    output: &mut [u8],
    lengths: &mut [u16],
) -> Flushed
    requires { Flushable link.old records.old pool.now acks.now output.old lengths.old }
    ensures runs { Runs paced link.old records.old pool.now acks.now t output.old lengths.old result link.new records.new output.new
        lengths.new }
    ensures keeps { FlushKeeps link.old link.new }
{
    let step = parts::step_of(paced, link.clock, t, link.settings.interval);
    link.clock = step.clock;
    if step.flushes {
        flush_now(link, records, pool, acks, t, output, lengths)
    } else {
        link.clock.current = t;
        Flushed {
            written: None,
            changed: 0,
        }
    }
}
