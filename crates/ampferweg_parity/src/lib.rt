// Parity for C: groups written and read. A number below zero is a refusal's.
#![tactic(auto)]

ghost use Rattle.std.specs.Prelude.{◌≡◌, length};
ghost use Rattle.frames.specs.Outcomes.{write_of};
ghost use Rattle.frames.specs.Reading.{read_of};
ghost use Rattle.ampferweg_parity.specs.Told.{count_code, answer_code, Told};

use frames::{Answer, Frames};

// A count of frames or datagrams; no group has more than 12.
fn count_code(n: usize) -> i32
    ensures { result ≡ count_code n }
{
    n.min(Frames::FRAMES_MOST) as i32
}

// The count, or the refusal.
fn answer_code(answer: Answer) -> i32
    ensures { result ≡ answer_code answer }
{
    match answer {
        Ok(n) => count_code(n),
        Err(refusal) => codes::number_code(refusal.number()),
    }
}

// Writes group `group` of k datagrams: the count of frames, or the refusal.
pub fn ampferweg_parity_write(
    group: u32,
    k: u32,
    mtu: u32,
    datagrams: &[u8],
    lengths: &[u16],
    out: &mut [u8],
    out_lengths: &mut [u16],
) -> i32
    ensures { Told
        (write_of group k mtu datagrams.now lengths.now
        (length out.old) (length out_lengths.old))
        out.old out_lengths.old result out.new out_lengths.new }
{
    answer_code(parity_writer::write_group(group, k, mtu, datagrams, lengths, out, out_lengths))
}

// Reads a group from frames of it: the count of datagrams, or the refusal.
pub fn ampferweg_parity_read(
    k: u32,
    mtu: u32,
    frames: &[u8],
    lengths: &[u16],
    out: &mut [u8],
    out_lengths: &mut [u16],
) -> i32
    ensures { Told
        (read_of k mtu frames.now lengths.now (length out.old) (length out_lengths.old))
        out.old out_lengths.old result out.new out_lengths.new }
{
    answer_code(parity_reader::read_group(k, mtu, frames, lengths, out, out_lengths))
}
