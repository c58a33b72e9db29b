// The answers of a replay as lines of text, put into lent output.
#![tactic(auto)]

pub mod link;

ghost use Rattle.std.specs.Prelude.{◌≡◌, take};
ghost use Rattle.notation.specs.Puts.{Put};
ghost use Rattle.transcript.specs.Lines.{number_line, bytes_line, refusal_line, answer_line, count_line, time_line, datagram_lines, row};

use answers::Answer;
use notation::put;
use protocol::Refusal;

// Words, and a number behind them.
fn number_line(out: &mut [u8], at: usize, words: &[u8], n: u64) -> usize
    ensures { Put out.old at (number_line words.now n) result out.new }
{
    let behind = put::bytes(out, at, words);
    let end = put::number(out, behind, n);
    put::byte(out, end, b'\n')
}

// A word, and bytes behind it: `message`, `part` and `datagram`.
pub fn bytes_line(out: &mut [u8], at: usize, words: &[u8], s: &[u8]) -> usize
    ensures { Put out.old at (bytes_line words.now s.now) result out.new }
{
    let behind = put::bytes(out, at, words);
    let end = put::hex(out, behind, s);
    put::byte(out, end, b'\n')
}

pub fn refused(out: &mut [u8], at: usize, refusal: Refusal) -> usize
    ensures { Put out.old at (refusal_line refusal) result out.new }
{
    number_line(out, at, b"refused ", refusal.number() as u64)
}

// The answer of opening, sending or taking in.
pub fn answer(out: &mut [u8], at: usize, answer: Answer<()>) -> usize
    ensures { Put out.old at (answer_line answer) result out.new }
{
    match answer {
        Ok(()) => put::bytes(out, at, b"ok\n"),
        Err(r) => refused(out, at, r),
    }
}

// The answer of a flush, behind its datagrams, and of telling the size.
pub fn count(out: &mut [u8], at: usize, count: Answer<usize>) -> usize
    ensures { Put out.old at (count_line count) result out.new }
{
    match count {
        Ok(n) => number_line(out, at, b"ok ", n as u64),
        Err(r) => refused(out, at, r),
    }
}

// The answer of a check.
pub fn time(out: &mut [u8], at: usize, time: Answer<u32>) -> usize
    ensures { Put out.old at (time_line time) result out.new }
{
    match time {
        Ok(t) => number_line(out, at, b"ok ", t as u64),
        Err(r) => refused(out, at, r),
    }
}

// A line for each of the first n datagrams, which stand one behind the other in `packed`.
pub fn datagrams(out: &mut [u8], at: usize, packed: &[u8], lengths: &[u16], n: usize) -> usize
    ensures { Put out.old at (datagram_lines packed.now (take n lengths.now)) result out.new }
{
    let first = notation::front(lengths, n);
    let mut here = at;
    let mut rest = packed;
    for len in first {
        let Some((datagram, behind)) = rest.split_at_checked(usize::from(*len)) else {
            return here;
        };
        here = bytes_line(out, here, b"datagram ", datagram);
        rest = behind;
    }
    here
}

// Numbers, with a space in front of each.
fn row(out: &mut [u8], at: usize, numbers: &[u64]) -> usize
    ensures { Put out.old at (row numbers.now) result out.new }
{
    let mut here = at;
    for n in numbers {
        let behind = put::byte(out, here, b' ');
        here = put::number(out, behind, *n);
    }
    here
}
