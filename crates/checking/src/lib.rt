// The check of a control block in place: refusal 13, after the lent sizes, refusal 7. Numbers by value, lists lent; the slots of each half
// are marked on the way. The passes over a list have no early exit.
#![tactic(auto)]

pub mod ahead;
pub mod flights;
pub mod full;
pub mod limits;
pub mod numbers;

ghost use Rattle.std.specs.Prelude.{◌≡◌, ◌≤◌, length};
ghost use Rattle.marks.specs.Marks.{none, none_to_send};
ghost use Rattle.checking.specs.Tests.{SendingFits, ReceivingFits};
ghost use Rattle.checking.specs.Verdicts.{Sound, verdict_of};

use answers::Answer;
use control::Link;
use protocol::Refusal;

// 7, then 13.
pub fn judged(long: bool, made: bool) -> Answer<()>
    ensures { result ≡ verdict_of long made }
{
    if !long {
        return Err(Refusal::ShortPart);
    }
    if !made {
        return Err(Refusal::InvalidBlock);
    }
    Ok(())
}

// The segments of the sending half; their slots are marked.
fn sending_fits(
    queued: &[u32],
    outstanding: &[u32],
    transmissions: &[u8],
    mss: u16,
    marks: &mut [u8; 128],
) -> bool
    requires { marks.old ≡ none_to_send }
    ensures { SendingFits mss queued.now outstanding.now transmissions.now marks.new result }
{
    let fit = limits::every(queued, |word| limits::send_word_fits(word, mss))
        & limits::every(outstanding, |word| limits::send_word_fits(word, mss))
        & limits::every(transmissions, limits::sent_few);
    if !fit {
        return false;
    }
    let first = marks::mark(marks, outstanding);
    let second = marks::mark(marks, queued);
    first & second
}

// The segments of the receiving half; their slots are marked.
fn receiving_fits(
    ready: &[u32],
    waiting: &[u32],
    numbers: &[u32],
    expected: u32,
    mss: u16,
    marks: &mut [u8; 256],
) -> bool
    requires { (length ready.now ≤ 128) × (length waiting.now ≤ 128) × (marks.old ≡ none) }
    ensures { ReceivingFits mss expected ready.now waiting.now numbers.now marks.new result }
{
    if !full::mark_held(ready, waiting, marks) {
        return false;
    }
    limits::every(ready, |word| limits::word_fits(word, mss))
        & limits::every(waiting, |word| limits::word_fits(word, mss))
        & ahead::ahead_fits(numbers, expected, ready.len())
}

// Whether a block is one that this link makes, but for the records of its outstanding segments. The slots held are marked. The lists are
// looked at where the numbers fit, and the receiving half where the sending half does.
pub fn sound(link: &Link, send_marks: &mut [u8; 128], receive_marks: &mut [u8; 256]) -> bool
    requires { (send_marks.old ≡ none_to_send) × (receive_marks.old ≡ none) }
    ensures { Sound link.now send_marks.new receive_marks.new result }
{
    let settings = link.settings;
    let flight = link.flight;
    let arrival = link.arrival;
    let expected = link.arrival.expected;
    if !numbers::numbers_fit(settings, flight, arrival, link.clock) {
        return false;
    }
    let most = settings.mss();
    let mss = most as u16;
    let m = flight.outstanding;
    let sends = sending_fits(
        &link.queued[..flight.queued],
        &link.outstanding[..m],
        &link.transmissions[..m],
        mss,
        send_marks,
    );
    if !sends {
        return false;
    }
    let w = arrival.waiting;
    receiving_fits(
        &link.ready[..arrival.ready],
        &link.waiting[..w],
        &link.waiting_numbers[..w],
        expected,
        mss,
        receive_marks,
    )
}
