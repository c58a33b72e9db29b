// A sample of the round trip, and the timeout that comes of it.
ghost use Rattle.std.specs.Prelude.{◌≡◌};
ghost use Rattle.timing.specs.RoundTrips.{least_timeout, next_smoothed, next_variation, timeout_of, sampled};

use crate::RoundTrip;
use protocol::{Protocol, Settings};

// The least timeout of a mode.
#[tactic(auto, unfolding(crate::specs::RoundTrips::least_timeout))]
pub fn least_timeout(mode: u8) -> u32
    ensures { result ≡ least_timeout mode }
{
    if mode == 0 {
        Protocol::TIMEOUT_LEAST
    } else {
        Protocol::TIMEOUT_LEAST_FAST
    }
}

// The smoothed time after a sample.
#[tactic(auto, unfolding(crate::specs::RoundTrips::next_smoothed))]
fn next_smoothed(smoothed: u32, sample: u32) -> u32
    ensures { result ≡ next_smoothed smoothed sample }
{
    if smoothed == 0 {
        return sample;
    }
    let mean = (7 * u64::from(smoothed) + u64::from(sample)) / 8;
    mean.max(1) as u32
}

// The variation after a sample, by the smoothed time before it.
#[tactic(auto, unfolding(crate::specs::RoundTrips::next_variation))]
fn next_variation(smoothed: u32, variation: u32, sample: u32) -> u32
    ensures { result ≡ next_variation smoothed variation sample }
{
    if smoothed == 0 {
        return sample / 2;
    }
    let apart = sample.abs_diff(smoothed);
    ((3 * u64::from(variation) + u64::from(apart)) / 4) as u32
}

// The link's timeout.
#[tactic(auto, unfolding(crate::specs::RoundTrips::timeout_of))]
fn timeout(settings: Settings, smoothed: u32, variation: u32) -> u32
    ensures { result ≡ timeout_of settings smoothed variation }
{
    let least = u64::from(least_timeout(settings.mode));
    let margin = u64::from(settings.interval).max(4 * u64::from(variation));
    let free = u64::from(smoothed) + margin;
    free.max(least).min(u64::from(Protocol::TIMEOUT_MOST)) as u32
}

impl RoundTrip {
    // After the sample r.
    #[tactic(auto, unfolding(crate::specs::RoundTrips::sampled))]
    pub fn sampled(self, settings: Settings, r: u32) -> RoundTrip
        ensures { result ≡ sampled self settings r }
    {
        let smoothed = next_smoothed(self.smoothed, r);
        let variation = next_variation(self.smoothed, self.variation, r);
        RoundTrip {
            smoothed,
            variation,
            timeout: timeout(settings, smoothed, variation),
        }
    }
}
