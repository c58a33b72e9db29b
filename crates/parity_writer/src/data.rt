// The data frames of a group.
ghost use Rattle.std.specs.Prelude.{◌≡◌, ◌+◌, ◌*◌, ◌≤◌, ◌<◌, length};
ghost use Rattle.std.proofs.lemmas.List.Edits.{sets};
ghost use Rattle.frames.specs.Lists.{add_up, parts, listed, joined, lengths_of};
ghost use Rattle.frames.specs.Frames.{data_type, shard, frame, frame_at};
ghost use Rattle.parity_writer.specs.Room.{FitsData};

use frames::Frames;
use frames::lent::Packed;
use wire::number::Number;

// The data frame of the datagram, put at `at`.
fn put_data(out: &mut [u8], at: usize, sequence: u32, datagram: &[u8])
    requires { (at + 8 + length datagram.now ≤ length out.old) × (length datagram.now + 2 < 65536) }
    ensures { out.new ≡ sets out.old at (frame sequence data_type (shard datagram.now)) }
{
    let n = datagram.len();
    sequence.put(out, at);
    Frames::DATA.put(out, at + 4);
    ((n + 2) as u16).put(out, at + 6);
    pools::copy_part(datagram, 0, n, out, at + Frames::HEADER);
}

// All data frames, and the place behind them.
pub fn put_all_data<'a>(
    start: u32,
    datagrams: Packed<'a>,
    out: &mut [u8],
    out_lengths: &mut [u16],
) -> usize
    requires { FitsData start datagrams.bytes.now datagrams.lengths.now (length out.old) (length out_lengths.old) }
    ensures next { result ≡ add_up datagrams.entry.lengths.now + 8 * length datagrams.entry.lengths.now }
    ensures bytes { let ds = parts datagrams.entry.bytes.now datagrams.entry.lengths.now in
        out.new ≡ sets out.old 0 (joined (listed (frame_at start ds) (length datagrams.entry.lengths.now))) }
    ensures lengths { let ds = parts datagrams.entry.bytes.now datagrams.entry.lengths.now in
        out_lengths.new ≡ sets out_lengths.old 0 (lengths_of (listed (frame_at start ds) (length datagrams.entry.lengths.now))) }
{
    let mut from = 0;
    let mut at = 0;
    for (p, n) in datagrams.lengths.iter().enumerate() {
        let size = usize::from(*n);
        put_data(
            out,
            at,
            start + p as u32,
            &datagrams.bytes[from..from + size],
        );
        out_lengths[p] = *n + 8;
        from += size;
        at += size + Frames::HEADER;
    }
    at
}
