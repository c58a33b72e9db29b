// Taking in a datagram, over a block where it stands that has passed the checks of 7 and 13; its receive slots are marked.
#![tactic(auto)]

ghost use Rattle.std.specs.Prelude.{◌≡◌, length};
ghost use Rattle.session.specs.Input.{input};
ghost use Rattle.control.specs.Views.{arrays_of, Whole, state_of};
ghost use Rattle.protocol.specs.Ranges.{mss};
ghost use Rattle.congestion.specs.Congestions.{Growable};
ghost use Rattle.input_core.specs.Taking.{Hearable, grown_from, Takes, InputKeeps};

use answers::Answer;
use arriving::Incoming;
use control::{Flight, Link};
use protocol::Settings;
use timing::Record;

// The sending half's numbers after a datagram, with the congestion window grown from what it was before.
fn grown(settings: Settings, before: Flight, after: Flight) -> Flight
    requires { Growable (mss settings) before.congestion }
    ensures { result ≡ grown_from settings before after }
{
    let most = settings.mss();
    let old = before.congestion;
    let mut flight = after;
    flight.congestion = old.after_datagram(most as u32, before.una, after.una, after.window);
    flight
}

// Taking in checks 1 to 6 and 14; nothing is applied until all segments have passed. Then both halves hear the datagram. It answers how
// many records go back into the table: the first ones, by their words.
pub fn input_checked(
    link: &mut Link,
    records: &mut [Record; 32],
    marks: &[u8; 256],
    pool: &mut [u8],
    acks: &mut [u32],
    datagram: &[u8],
) -> Answer<usize>
    requires { Hearable link.old records.old marks.now acks.old pool.old }
    ensures takes { Takes (input (state_of link.old records.old acks.old) pool.old datagram.now) link.old pool.old acks.old
        result link.new records.new pool.new acks.new
        × Whole (arrays_of link.new) × (length records.new ≡ 32) }
    ensures keeps { InputKeeps link.old link.new }
{
    let settings = link.settings;
    let before = link.flight;
    datagram::check(datagram, settings.conv, settings.mss())?;
    let sent = acknowledge::hear(
        before,
        records,
        settings,
        link.clock.current,
        &mut link.outstanding,
        &mut link.transmissions,
        datagram,
    );
    let mut half = Incoming {
        arrival: link.arrival,
        ready: &mut link.ready,
        waiting: &mut link.waiting,
        numbers: &mut link.waiting_numbers,
    };
    receive::hear(&mut half, settings, datagram, marks, pool, acks);
    let arrival = half.arrival;
    link.arrival = arrival;
    link.flight = grown(settings, before, sent);
    Ok(link.flight.outstanding)
}
