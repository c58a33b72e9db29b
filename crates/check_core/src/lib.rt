// The core of a check, over a block where it stands that has passed the checks of 7 and 13, with the records of its outstanding segments.
#![tactic(auto)]

ghost use Rattle.std.specs.Prelude.{◌≡◌, true, List, ℕ};
ghost use Rattle.session.specs.Updating.{checking};
ghost use Rattle.control.specs.Views.{counts_fit, state_of};

use control::Link;
use flush_core::parts;
use timing::Record;

// The time at which the next update is wanted.
pub fn next_update(link: &Link, records: &[Record; 32], t: u32) -> u32
    requires { counts_fit link.now ≡ true }
    ensures { (acks : List ℕ) → result ≡ checking (state_of link.now records.now acks) t }
{
    let schedule = parts::schedule_of(link.clock);
    schedule.check(t, link.settings.interval, records, link.flight.outstanding)
}
