// What C calls of parity: each function gives what it is given to the one of its name in `ampferweg_parity`.
#![tactic(auto)]

ghost use Rattle.std.specs.Prelude.{length};
ghost use Rattle.frames.specs.Outcomes.{write_of};
ghost use Rattle.frames.specs.Reading.{read_of};
ghost use Rattle.ampferweg_parity.specs.Told.{Told};

// Writes group `group` of k datagrams: the count of frames, or the refusal.
#[unsafe(no_mangle)]
pub extern "C" fn ampferweg_parity_write(
    group: u32,
    k: u32,
    mtu: u32,
    datagrams: &[u8],
    lengths: &[u16],
    out: &mut [u8],
    out_lengths: &mut [u16],
) -> i32
    ensures { Told
        (write_of group k mtu datagrams.now lengths.now
        (length out.old) (length out_lengths.old))
        out.old out_lengths.old result out.new out_lengths.new }
{
    ampferweg_parity::ampferweg_parity_write(group, k, mtu, datagrams, lengths, out, out_lengths)
}

// Reads a group from frames of it: the count of datagrams, or the refusal.
#[unsafe(no_mangle)]
pub extern "C" fn ampferweg_parity_read(
    k: u32,
    mtu: u32,
    frames: &[u8],
    lengths: &[u16],
    out: &mut [u8],
    out_lengths: &mut [u16],
) -> i32
    ensures { Told
        (read_of k mtu frames.now lengths.now (length out.old) (length out_lengths.old))
        out.old out_lengths.old result out.new out_lengths.new }
{
    ampferweg_parity::ampferweg_parity_read(k, mtu, frames, lengths, out, out_lengths)
}
