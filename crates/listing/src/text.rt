// Lines of numbers, put into the bytes of a line.
ghost use Rattle.std.specs.Prelude.{◌≡◌, ◌++◌, ◌≤◌, length};
ghost use Rattle.notation.specs.Puts.{Put};
ghost use Rattle.listing.specs.Puts.{spaced};
ghost use Rattle.listing.specs.Lines.{newline, field, segment_line, Holds};

use crate::Line;
use notation::put;
use wire::Header;

// A number, and the byte behind it.
fn field(out: &mut [u8], at: usize, n: u64, end: u8) -> usize
    ensures { Put out.old at (field n end) result out.new }
{
    let behind = put::number(out, at, n);
    put::byte(out, behind, end)
}

// Numbers, with a space behind each.
fn spaced(out: &mut [u8], at: usize, numbers: &[u64]) -> usize
    ensures { Put out.old at (spaced numbers.now) result out.new }
{
    let mut here = at;
    for n in numbers {
        here = field(out, here, *n, b' ');
    }
    here
}

// The fields of a header, with a space behind each but the last, and a newline behind that.
pub(crate) fn header_line(h: Header) -> Line
    ensures { Holds (segment_line h) result }
{
    let first = [
        u64::from(h.conv),
        u64::from(h.cmd),
        u64::from(h.frg),
        u64::from(h.wnd),
        u64::from(h.ts),
        u64::from(h.sn),
        u64::from(h.una),
    ];
    let mut bytes = [0; 80];
    let behind = spaced(&mut bytes, 0, &first);
    let len = field(&mut bytes, behind, u64::from(h.len), b'\n');
    Line { bytes, len }
}

// Words, and a number behind them.
pub(crate) fn last_line(words: &[u8], n: u64) -> Line
    requires { length words.now ≤ 50 }
    ensures { Holds (words.now ++ field n newline) result }
{
    let mut bytes = [0; 80];
    let behind = put::bytes(&mut bytes, 0, words);
    let len = field(&mut bytes, behind, n, b'\n');
    Line { bytes, len }
}
