// The walk over a datagram: its check, and its segments one by one.
#![tactic(auto)]

ghost use Rattle.std.specs.Prelude.{◌≡◌};
ghost use Rattle.datagram.specs.Datagrams.{verdict, parse, counted, step_at};

use protocol::{Protocol, Refusal};
use wire::Header;

// A whole segment of a datagram: its header, and its payload from `start` up to `next`, where the next segment begins.
#[derive(Clone, Copy)]
pub struct Segment {
    pub header: Header,
    pub start: usize,
    pub next: usize,
}

// The tests of a header that has `room` bytes behind it, in turn.
#[tactic(auto, unfolding(crate::specs::Datagrams::verdict))]
fn judge(h: Header, room: usize, conv: u32, mss: usize) -> Result<(), Refusal>
    ensures { result ≡ verdict conv mss room h }
{
    let len = h.len as usize;
    if h.conv != conv {
        return Err(Refusal::OtherConversation);
    }
    if room < len {
        return Err(Refusal::LengthPastEnd);
    }
    if !(Protocol::PUSH..=Protocol::WINDOW_TELL).contains(&h.cmd) {
        return Err(Refusal::UnknownCommand);
    }
    if h.cmd != Protocol::PUSH {
        return Ok(());
    }
    if mss < len {
        return Err(Refusal::LongPayload);
    }
    if Protocol::FRAGMENT_MOST < h.frg {
        return Err(Refusal::HighFragment);
    }
    Ok(())
}

// Counts the datagram's segments; the first that fails a test decides, and then a tail of 1 to 23 bytes behind the last.
pub fn check(s: &[u8], conv: u32, mss: usize) -> Result<usize, Refusal>
    ensures { result ≡ counted 0 (parse conv mss s.now) }
{
    if s.len() < Protocol::HEADER {
        return Err(Refusal::ShortDatagram);
    }
    let mut at = 0;
    let mut count = 0;
    while let Some(h) = wire::codec::find_header(s, at) {
        let start = at + Protocol::HEADER;
        judge(h, s.len() - start, conv, mss)?;
        at = start + (h.len as usize);
        count += 1;
    }
    if at < s.len() {
        return Err(Refusal::TrailingBytes);
    }
    Ok(count)
}

// The segment at `at`. From 0 on, and then at each `next`, these are the segments of a datagram that `check` accepts.
#[tactic(auto, unfolding(crate::specs::Datagrams::step_at, wire::specs::Headers::header_at))]
pub fn segment_at(s: &[u8], at: usize) -> Option<Segment>
    ensures { result ≡ step_at s.now at }
{
    let header = wire::codec::find_header(s, at)?;
    let start = at + Protocol::HEADER;
    let len = header.len as usize;
    if s.len() - start < len {
        return None;
    }
    Some(Segment {
        header,
        start,
        next: start + len,
    })
}
