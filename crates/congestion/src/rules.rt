// The rules of the congestion window. They hold in every link; only with the setting on does a flush go by the window.
ghost use Rattle.std.specs.Prelude.{◌≡◌, ◌+◌, ◌^◌, ◌<◌, min, max};
ghost use Rattle.congestion.specs.Congestions.{
  initial,
  used_window,
  raised,
  widened,
  slow_start,
  avoidance,
  limited,
  grown,
  after_datagram,
  halved,
  by_skips,
  by_timeout,
  at_least_one,
  after_flush,
  fits,
  Growable,
  Countable,
};

use crate::{Congestion, Losses};
use protocol::Protocol;

// The window that a flush goes by: the least of 32, the peer's window and, with the setting on, the congestion window.
#[tactic(auto, unfolding(crate::specs::Congestions::used_window))]
pub fn used_window(on: bool, peer: u16, window: u32) -> u32
    ensures { result ≡ used_window on peer window }
{
    let most = Protocol::SEND_WINDOW.min(u32::from(peer));
    if on { most.min(window) } else { most }
}

// The allowance after growth at or past the threshold.
#[tactic(auto, unfolding(crate::specs::Congestions::raised))]
fn raised(allowance: u32, mss: u32) -> u32
    requires { (allowance < 2 ^ 31) × (0 < mss) × (mss < 2 ^ 15) }
    ensures { result ≡ raised allowance mss }
{
    let base = mss.max(allowance);
    base + (mss * mss / base + mss / 16)
}

// The window, as wide as an allowance that has room for one segment more.
#[tactic(auto, unfolding(crate::specs::Congestions::widened))]
fn widened(window: u32, allowance: u32, mss: u32) -> u32
    requires { (window < 65536) × (allowance < 2 ^ 31 + 2 ^ 30 + 2 ^ 15) × (0 < mss) × (mss < 2 ^ 15) }
    ensures { result ≡ widened window allowance mss }
{
    if (window + 1) * mss <= allowance {
        (allowance + mss - 1) / mss
    } else {
        window
    }
}

// Growth below the threshold. `Growable` is asked and no invariant of `Congestion`, which lies in the block that C lends.
#[tactic(auto, unfolding(crate::specs::Congestions::slow_start))]
fn slow_start(c: Congestion, mss: u32) -> Congestion
    requires { Growable mss c }
    ensures { result ≡ slow_start c mss }
{
    Congestion {
        window: c.window + 1,
        allowance: c.allowance + mss,
        ..c
    }
}

// Growth at or past the threshold.
#[tactic(auto, unfolding(crate::specs::Congestions::avoidance))]
fn avoidance(c: Congestion, mss: u32) -> Congestion
    requires { Growable mss c }
    ensures { result ≡ avoidance c mss }
{
    let allowance = raised(c.allowance, mss);
    Congestion {
        window: widened(c.window, allowance, mss),
        allowance,
        ..c
    }
}

// No more than the peer's window.
#[tactic(auto, unfolding(crate::specs::Congestions::limited))]
fn limited(c: Congestion, mss: u32, peer: u16) -> Congestion
    requires { mss < 2 ^ 15 }
    ensures { result ≡ limited c mss peer }
{
    let most = u32::from(peer);
    if most < c.window {
        Congestion {
            window: most,
            allowance: most * mss,
            ..c
        }
    } else {
        c
    }
}

// Half of a number of segments, and no less than the least threshold.
#[tactic(auto, unfolding(crate::specs::Congestions::halved))]
fn halved(segments: u32) -> u32
    ensures { result ≡ halved segments }
{
    Protocol::CONGESTION_THRESHOLD_LEAST.max(segments / 2)
}

// Loss by skips.
#[tactic(auto, unfolding(crate::specs::Congestions::by_skips))]
fn by_skips(losses: Losses, mss: u32) -> Congestion
    requires { Countable mss losses }
    ensures { result ≡ by_skips losses mss }
{
    let threshold = halved(losses.inflight);
    let window = threshold + u32::from(losses.skips);
    Congestion {
        window,
        threshold,
        allowance: window * mss,
    }
}

// Loss by timeout.
#[tactic(auto, unfolding(crate::specs::Congestions::by_timeout))]
fn by_timeout(losses: Losses, mss: u32) -> Congestion
    ensures { result ≡ by_timeout losses mss }
{
    Congestion {
        window: 1,
        threshold: halved(losses.used),
        allowance: mss,
    }
}

// A window under 1 becomes 1.
#[tactic(auto, unfolding(crate::specs::Congestions::at_least_one))]
fn at_least_one(c: Congestion, mss: u32) -> Congestion
    ensures { result ≡ at_least_one c mss }
{
    if c.window < 1 {
        Congestion {
            window: 1,
            allowance: mss,
            ..c
        }
    } else {
        c
    }
}

impl Congestion {
    // At opening.
    pub fn new() -> Self
        ensures { result ≡ initial }
    {
        Congestion {
            window: 0,
            threshold: Protocol::CONGESTION_THRESHOLD_LEAST,
            allowance: 0,
        }
    }

    // Growth, by the peer's window.
    #[tactic(auto, unfolding(crate::specs::Congestions::grown))]
    pub fn grown(self, mss: u32, peer: u16) -> Congestion
        requires { Growable mss self }
        ensures { result ≡ grown self mss peer }
    {
        if u32::from(peer) <= self.window {
            return self;
        }
        let wider = if self.window < self.threshold {
            slow_start(self, mss)
        } else {
            avoidance(self, mss)
        };
        limited(wider, mss, peer)
    }

    // After a datagram, by snd_una before and after it and the peer's window after it.
    #[tactic(auto, unfolding(crate::specs::Congestions::after_datagram))]
    pub fn after_datagram(self, mss: u32, before: u32, after: u32, peer: u16) -> Congestion
        requires { Growable mss self }
        ensures { result ≡ after_datagram self mss before after peer }
    {
        if before == after {
            self
        } else {
            self.grown(mss, peer)
        }
    }

    // At the end of a flush: loss by skips, then by timeout, which leaves nothing of the former; then a window under 1 becomes 1.
    #[tactic(auto, unfolding(crate::specs::Congestions::after_flush))]
    pub fn after_flush(self, mss: u32, losses: Losses) -> Congestion
        requires { Countable mss losses }
        ensures { result ≡ after_flush self mss losses }
    {
        let after = if losses.late {
            by_timeout(losses, mss)
        } else if losses.fast {
            by_skips(losses, mss)
        } else {
            self
        };
        at_least_one(after, mss)
    }

    // Whether refusal 13 lets it pass.
    #[tactic(auto, unfolding(crate::specs::Congestions::fits))]
    pub fn fits(self, mss: u32) -> bool
        ensures { result ≡ fits self mss }
    {
        let thresholds = Protocol::CONGESTION_THRESHOLD_LEAST..=Protocol::CONGESTION_THRESHOLD_MOST;
        (self.window <= Protocol::CONGESTION_WINDOW_MOST)
            & thresholds.contains(&self.threshold)
            & (u64::from(self.allowance) <= (u64::from(self.window) + 1) * u64::from(mss))
    }
}
