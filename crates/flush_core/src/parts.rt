// The parts of a flush and of an update: what they go by, and the numbers that they leave.
ghost use Rattle.std.specs.Prelude.{◌≡◌, cond, ◌≤◌};
ghost use Rattle.control.specs.Views.{schedule_of};
ghost use Rattle.protocol.specs.Ranges.{mss};
ghost use Rattle.congestion.specs.Congestions.{Countable};
ghost use Rattle.flush_core.specs.Parts.{Plans, window_in, losses_in, with_losses, Moves, Steps};

use congestion::{Losses, rules};
use control::{Clock, Flight, Link};
use packing::Carried;
use protocol::{Protocol, Settings, serial};
use schedule::Schedule;
use timing::ProbeClock;
use transmit::Flush;

// What a flush goes by, whether it asks and tells, and the probe clock after it.
#[derive(Clone, Copy)]
pub(crate) struct Plan {
    pub(crate) flush: Flush,
    pub(crate) ask: bool,
    pub(crate) tell: bool,
    pub(crate) probe: ProbeClock,
}

impl Plan {
    // What a flush at t goes by.
    pub(crate) fn new(link: &Link, t: u32) -> Plan
        requires { link.now.arrival.ready ≤ 128 }
        ensures { Plans link.now.settings link.now.flight link.now.arrival link.now.clock t result }
    {
        let free = Protocol::RECEIVE_WINDOW as usize - link.arrival.ready;
        let probed = link.clock.probe.next(t, link.flight.window);
        Plan {
            flush: Flush {
                settings: link.settings,
                carried: Carried {
                    conv: link.settings.conv,
                    wnd: free as u16,
                    una: link.arrival.expected,
                },
                timeout: link.flight.rtt.timeout,
                t,
            },
            ask: (link.clock.ask != 0) | probed.ask,
            tell: link.arrival.tell != 0,
            probe: probed.clock,
        }
    }
}

// The window that a flush goes by.
pub(crate) fn window_of(settings: Settings, flight: Flight) -> u32
    ensures { result ≡ window_in settings flight }
{
    rules::used_window(
        settings.congestion == 1,
        flight.window,
        flight.congestion.window,
    )
}

// The sending half's numbers at the end of a flush that used this window, with the congestion window after its losses.
pub(crate) fn after_losses(
    settings: Settings,
    flight: Flight,
    window: u32,
    fast: bool,
    late: bool,
) -> Flight
    requires { Countable (mss settings) (losses_in settings flight window fast late) }
    ensures { result ≡ with_losses settings flight window fast late }
{
    let losses = Losses {
        fast,
        late,
        skips: settings.threshold,
        inflight: serial::difference(flight.next, flight.una),
        used: window,
    };
    Flight {
        congestion: flight.congestion.after_flush(settings.mss() as u32, losses),
        ..flight
    }
}

// How many of n outstanding segments have records to be put back: none where none was sent.
pub(crate) fn changed(sent: bool, n: usize) -> usize
    ensures { result ≡ cond sent n 0 }
{
    if sent { n } else { 0 }
}

// The clock after a flush at t: no ask is wanted, and the schedule is as it was.
pub(crate) fn moved(clock: Clock, probe: ProbeClock, dead: bool, t: u32) -> Clock
    ensures { Moves clock probe dead t result }
{
    Clock {
        probe,
        current: t,
        ask: 0,
        dead: u8::from((clock.dead != 0) | dead),
        ..clock
    }
}

// The clock with the next schedule, and whether the flush runs.
#[derive(Clone, Copy)]
pub(crate) struct Step {
    pub(crate) clock: Clock,
    pub(crate) flushes: bool,
}

// The schedule in a clock.
pub fn schedule_of(clock: Clock) -> Schedule
    ensures { result ≡ schedule_of clock }
{
    Schedule {
        next: clock.next_flush,
        made: clock.updated != 0,
    }
}

// Where it is paced the schedule is moved on by an update at t; else it is as it was, and the flush runs.
pub(crate) fn step_of(paced: bool, clock: Clock, t: u32, interval: u16) -> Step
    ensures { Steps paced clock t interval result }
{
    if !paced {
        return Step {
            clock,
            flushes: true,
        };
    }
    let updated = schedule_of(clock).update(t, interval);
    Step {
        clock: Clock {
            next_flush: updated.schedule.next,
            updated: u8::from(updated.schedule.made),
            ..clock
        },
        flushes: updated.flushes,
    }
}
