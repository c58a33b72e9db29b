// What a flush does with an outstanding segment, and a skip with its record.
// `own` is the timeout of the segment, `link` that of the link; `old` is the record before.
ghost use Rattle.std.specs.Prelude.{◌≡◌};
ghost use Rattle.retransmission.specs.Transmissions.{
  first_due,
  first_transmission,
  growth,
  longer_timeout,
  timed_out,
  is_skipped,
  fast_transmission,
  counted,
  sending_by,
  skipped,
  transmission,
};

use crate::{Cause, Transmission};
use protocol::{Protocol, Settings, serial};
use timing::Record;

// When a segment that is sent at t for the first time is due: in mode 0 an eighth of the timeout later.
#[tactic(auto, unfolding(crate::specs::Transmissions::first_due))]
fn first_due(mode: u8, link: u32, t: u32) -> u32
    ensures { result ≡ first_due mode link t }
{
    if mode == 0 {
        serial::sum(serial::sum(t, link), link / 8)
    } else {
        serial::sum(t, link)
    }
}

// The record of a segment that was never sent, sent at t.
fn first_transmission(mode: u8, link: u32, t: u32, old: Record) -> Record
    ensures { result ≡ first_transmission mode link t old }
{
    Record {
        due: first_due(mode, link, t),
        timeout: link,
        ..old
    }
}

// What a segment that is due adds to its timeout. A mode above 2 never passes the check of the settings; here it is as 2.
#[tactic(auto, unfolding(crate::specs::Transmissions::growth))]
fn growth(mode: u8, own: u32, link: u32) -> u32
    ensures { result ≡ growth mode own link }
{
    match mode {
        0 => own.max(link),
        1 => own / 2,
        _ => link / 2,
    }
}

// The timeout of a segment that is due.
#[tactic(auto, unfolding(crate::specs::Transmissions::longer_timeout))]
fn longer_timeout(mode: u8, own: u32, link: u32) -> u32
    ensures { result ≡ longer_timeout mode own link }
{
    let longer = own.saturating_add(growth(mode, own, link));
    longer.min(Protocol::TIMEOUT_MOST)
}

// The record of a segment that is due, sent at t.
fn timed_out(mode: u8, link: u32, t: u32, old: Record) -> Record
    ensures { result ≡ timed_out mode link t old }
{
    let timeout = longer_timeout(mode, old.timeout, link);
    Record {
        due: serial::sum(t, timeout),
        timeout,
        ..old
    }
}

// Whether a segment has been skipped often enough, and sent seldom enough, to be sent before it is due.
#[tactic(auto, unfolding(crate::specs::Transmissions::is_skipped))]
fn is_skipped(threshold: u8, transmissions: u8, skips: u32) -> bool
    ensures { result ≡ is_skipped threshold transmissions skips }
{
    (0 < threshold) & (u32::from(threshold) <= skips) & (transmissions <= Protocol::FAST_MOST)
}

// The record of a segment that was skipped, sent at t.
fn fast_transmission(t: u32, old: Record) -> Record
    ensures { result ≡ fast_transmission t old }
{
    Record {
        due: serial::sum(t, old.timeout),
        skips: 0,
        ..old
    }
}

// One transmission more.
fn counted(transmissions: u8) -> u8
    ensures { result ≡ counted transmissions }
{
    transmissions.saturating_add(1).min(Protocol::DEAD_AFTER)
}

// A segment that is sent, with the record that it gets.
fn sending(cause: Cause, transmissions: u8, updated: Record) -> Transmission
    ensures { result ≡ sending_by cause transmissions updated }
{
    Transmission {
        cause: Some(cause),
        transmissions: counted(transmissions),
        updated,
    }
}

// What a flush at t does with an outstanding segment: the first rule that holds is used.
// Where none holds, nothing is sent and all stays.
#[tactic(auto, unfolding(crate::specs::Transmissions::transmission))]
pub fn transmission(
    settings: Settings,
    link: u32,
    t: u32,
    transmissions: u8,
    old: Record,
) -> Transmission
    ensures { result ≡ transmission settings link t transmissions old }
{
    let mode = settings.mode;
    if transmissions == 0 {
        let first = first_transmission(mode, link, t, old);
        return sending(Cause::First, transmissions, first);
    }
    if serial::due(t, old.due) {
        return sending(Cause::Late, transmissions, timed_out(mode, link, t, old));
    }
    if is_skipped(settings.threshold, transmissions, old.skips) {
        return sending(Cause::Fast, transmissions, fast_transmission(t, old));
    }
    Transmission {
        cause: None,
        transmissions,
        updated: old,
    }
}

// The record with one skip more.
pub fn skipped(old: Record) -> Record
    ensures { result ≡ skipped old }
{
    let skips = old.skips.saturating_add(1).min(Protocol::SKIPS_MOST);
    Record { skips, ..old }
}
