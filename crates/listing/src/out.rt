// Lines put into lent output.
ghost use Rattle.std.specs.Prelude.{◌≡◌, Ok, ◌+◌, ◌≤◌, length};
ghost use Rattle.listing.specs.Lines.{text_of};
ghost use Rattle.listing.specs.Listings.{listed, judged, body};
ghost use Rattle.listing.specs.Puts.{Wrote};

use crate::Line;
use notation::put;

// All of `s` at `at`, where there is room for it, and the place behind it.
pub(crate) fn put_text(out: &mut [u8], at: usize, s: &[u8]) -> usize
    requires { at + length s.now ≤ length out.old }
    ensures { Wrote out.old at s.now result out.new }
{
    put::bytes(out, at, s)
}

// The text of a line at `at`, where there is room for it, and the place behind it.
pub(crate) fn put_line(out: &mut [u8], at: usize, line: Line) -> usize
    requires { (line.len ≤ 80) × (at + line.len ≤ length out.old) }
    ensures { Wrote out.old at (text_of line) result out.new }
{
    put_text(out, at, &line.bytes[..line.len])
}

// The lines of an accepted datagram of n segments at `at`, and the place behind them. A segment has 24 bytes or more and a
// line 80 at most, so the lines of 65,536 bytes are under 219,000.
pub(crate) fn put_segments(out: &mut [u8], at: usize, s: &[u8], n: usize) -> usize
    requires { (judged s.now ≡ Ok n) × (at + 219000 ≤ length out.old) }
    ensures { Wrote out.old at (body (listed s.now)) result out.new }
{
    let mut here = at;
    let mut from = 0;
    while let Some(segment) = datagram::segment_at(s, from) {
        here = put_line(out, here, crate::segment_line(segment.header));
        from = segment.next;
    }
    put_line(out, here, crate::count_line(n))
}
