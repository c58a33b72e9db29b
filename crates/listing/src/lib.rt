// The lister's lines, and the whole listing of a datagram.
#![tactic(auto)]

mod out;
mod text;

ghost use Rattle.std.specs.Prelude.{◌≡◌};
ghost use Rattle.listing.specs.Lines.{segment_line, count_line, refusal_line, Holds};
ghost use Rattle.listing.specs.Listings.{judged, WroteListing};

use protocol::Refusal;
use wire::Header;

// A line of text: the first `len` bytes.
#[derive(Clone, Copy)]
pub struct Line {
    pub bytes: [u8; 80],
    pub len: usize,
}

// The most bytes of a datagram that is listed, and the largest payload of its pushes.
pub const DATAGRAM_MOST: usize = 65536;

pub const MSS: usize = 488;

// So many bytes of output hold any listing.
pub const ROOM_LEAST: usize = 220000;

// The line of a segment: its header's fields.
pub fn segment_line(h: Header) -> Line
    ensures { Holds (segment_line h) result }
{
    text::header_line(h)
}

// The last line where a datagram is accepted.
pub fn count_line(n: usize) -> Line
    ensures { Holds (count_line n) result }
{
    text::last_line(b"ok ", n as u64)
}

// The last line where it is refused.
pub fn refusal_line(r: Refusal) -> Line
    ensures { Holds (refusal_line r) result }
{
    text::last_line(b"refused ", r.number() as u64)
}

// The count of a datagram's segments, or why it is refused. Its first four bytes are its conversation.
pub fn judge(s: &[u8]) -> Result<usize, Refusal>
    ensures { result ≡ judged s.now }
{
    if DATAGRAM_MOST < s.len() {
        return Err(Refusal::ShortPart);
    }
    let Some(first) = wire::codec::find_header(s, 0) else {
        return Err(Refusal::ShortDatagram);
    };
    datagram::check(s, first.conv, MSS)
}

// Writes the listing of a datagram to the start of `out`, and answers its length; 0 where `out` is under `ROOM_LEAST`.
pub fn listing(s: &[u8], out: &mut [u8]) -> usize
    ensures { WroteListing out.old s.now result out.new }
{
    if out.len() < ROOM_LEAST {
        return 0;
    }
    let at = out::put_text(out, 0, b"conv cmd frg wnd ts sn una len\n");
    match judge(s) {
        Err(r) => out::put_line(out, at, refusal_line(r)),
        Ok(n) => out::put_segments(out, at, s, n),
    }
}
