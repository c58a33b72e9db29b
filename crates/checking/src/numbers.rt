// What is no list: counts, settings, round trip, probe clock and congestion window.
ghost use Rattle.std.specs.Prelude.{◌≡◌};
ghost use Rattle.session.specs.Valid.{timeout_fits, round_trip_fits, probe_fits};
ghost use Rattle.control.specs.Views.{counted};
ghost use Rattle.checking.specs.Tests.{numbers_fit};

use control::{Arrival, Clock, Flight};
use protocol::{Protocol, Settings};
use timing::{ProbeClock, RoundTrip, round_trip};

// Half of the 32-bit numbers.
const HALF: u32 = 1 << 31;

// A timeout from the mode's least to 60,000.
pub fn timeout_fits(mode: u8, timeout: u32) -> bool
    ensures { result ≡ timeout_fits mode timeout }
{
    (round_trip::least_timeout(mode)..=Protocol::TIMEOUT_MOST).contains(&timeout)
}

// Smoothed time and variation below 2^31, and the timeout.
fn round_trip_fits(mode: u8, trip: RoundTrip) -> bool
    ensures { result ≡ round_trip_fits mode trip }
{
    (trip.smoothed < HALF) & (trip.variation < HALF) & timeout_fits(mode, trip.timeout)
}

// A wait of 0, or of 7,000 to 120,000.
fn probe_fits(probe: ProbeClock) -> bool
    ensures { result ≡ probe_fits probe }
{
    (probe.wait == 0)
        | (Protocol::PROBE_WAIT_LEAST..=Protocol::PROBE_WAIT_MOST).contains(&probe.wait)
}

// Each count is within what its array holds.
fn counts_fit(flight: Flight, arrival: Arrival) -> bool
    ensures { result ≡ counted flight arrival }
{
    (flight.queued <= 128)
        & (flight.outstanding <= 32)
        & (arrival.ready <= 128)
        & (arrival.waiting <= 128)
        & (arrival.acks <= Protocol::ACKS_MOST)
}

// All that is no list.
pub fn numbers_fit(settings: Settings, flight: Flight, arrival: Arrival, clock: Clock) -> bool
    ensures { result ≡ numbers_fit settings flight arrival clock }
{
    let counts = counts_fit(flight, arrival);
    let ranges = settings.in_range();
    let trip = round_trip_fits(settings.mode, flight.rtt);
    let probe = probe_fits(clock.probe);
    let mss = settings.mss();
    counts & ranges & trip & probe & flight.congestion.fits(mss as u32)
}
