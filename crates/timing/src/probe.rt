// The probe clock, moved on by each flush before it writes.
ghost use Rattle.std.specs.Prelude.{◌≡◌};
ghost use Rattle.timing.specs.Probes.{started, longer_wait, grown, next_clock};

use crate::{ProbeClock, Probed};
use protocol::{Protocol, serial};

// The clock at the first flush with window 0.
fn started(t: u32) -> ProbeClock
    ensures { result ≡ started t }
{
    ProbeClock {
        wait: Protocol::PROBE_WAIT_LEAST,
        due: serial::sum(t, Protocol::PROBE_WAIT_LEAST),
    }
}

// A wait grown by half.
#[tactic(auto, unfolding(crate::specs::Probes::longer_wait))]
fn longer_wait(wait: u32) -> u32
    ensures { result ≡ longer_wait wait }
{
    let longer = u64::from(wait) + u64::from(wait / 2);
    longer.min(u64::from(Protocol::PROBE_WAIT_MOST)) as u32
}

// The clock that is due.
fn grown(wait: u32, t: u32) -> ProbeClock
    ensures { result ≡ grown wait t }
{
    let next = longer_wait(wait);
    ProbeClock {
        wait: next,
        due: serial::sum(t, next),
    }
}

impl ProbeClock {
    // The clock after a flush at t that finds this window of the peer, and whether an ask is wanted.
    #[tactic(auto, unfolding(crate::specs::Probes::next_clock))]
    pub fn next(self, t: u32, window: u16) -> Probed
        ensures { result ≡ next_clock self t window }
    {
        if 0 < window {
            return Probed {
                clock: ProbeClock::default(),
                ask: false,
            };
        }
        if self.wait == 0 {
            let clock = started(t);
            return Probed { clock, ask: false };
        }
        if serial::due(t, self.due) {
            let clock = grown(self.wait, t);
            return Probed { clock, ask: true };
        }
        Probed {
            clock: self,
            ask: false,
        }
    }
}
