// Opening a link over the block where it stands: its numbers alone, since what stands in an array past its count is not state.
#![tactic(auto)]

ghost use Rattle.promises.specs.Outcomes.{opens_with};
ghost use Rattle.promises.specs.Cores.{OpenCore};
ghost use Rattle.open_core.specs.Fresh.{OpenKeeps};

use answers::Answer;
use congestion::Congestion;
use control::{Arrival, Clock, Flight, Link};
use protocol::{Protocol, Refusal, Settings};
use sizes::Lengths;
use timing::RoundTrip;

// Opening checks 12, then 7. The peer's window is 128 then, the link timeout 200, the congestion window as at opening, and all else 0 or
// unset; a refused opening leaves the block.
pub fn open(link: &mut Link, new: Settings, lent: Lengths) -> Answer<()>
    ensures opens { OpenCore (opens_with new lent) link.old result link.new }
    ensures keeps { OpenKeeps link.old link.new }
{
    if !new.in_range() {
        return Err(Refusal::SettingOutOfRange);
    }
    if !sizes::enough(new, lent) {
        return Err(Refusal::ShortPart);
    }
    link.settings = new;
    link.flight = Flight {
        rtt: RoundTrip {
            timeout: Protocol::TIMEOUT_FIRST,
            ..RoundTrip::default()
        },
        window: 128,
        congestion: Congestion::new(),
        ..Flight::default()
    };
    link.arrival = Arrival::default();
    link.clock = Clock::default();
    Ok(())
}
