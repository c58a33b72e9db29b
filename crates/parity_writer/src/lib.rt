// The writer of a group: k data frames and two parity frames.
#![tactic(auto)]

mod data;
mod shards;

ghost use Rattle.std.specs.Prelude.{◌≡◌, length};
ghost use Rattle.std.proofs.lemmas.List.Edits.{sets};
ghost use Rattle.frames.specs.Lists.{parts, joined, lengths_of};
ghost use Rattle.frames.specs.Frames.{group};
ghost use Rattle.frames.specs.Outcomes.{Gives, write_of};
ghost use Rattle.parity_writer.specs.Room.{Fits};

use frames::lent::{self, Packed};
use frames::{Answer, Frames, Refusal, Shape};

// The whole group.
fn put_group<'a>(start: u32, datagrams: Packed<'a>, out: &mut [u8], out_lengths: &mut [u16])
    requires { Fits start datagrams.bytes.now datagrams.lengths.now (length out.old) (length out_lengths.old) }
    ensures bytes { let ds = parts datagrams.entry.bytes.now datagrams.entry.lengths.now in
        out.new ≡ sets out.old 0 (joined (group start ds)) }
    ensures lengths { let ds = parts datagrams.entry.bytes.now datagrams.entry.lengths.now in
        out_lengths.new ≡ sets out_lengths.old 0 (lengths_of (group start ds)) }
{
    let k = datagrams.lengths.len();
    let most = shards::largest_of(datagrams.lengths);
    let at = data::put_all_data(start, datagrams, out, out_lengths);
    let total = at - Frames::HEADER * k;
    let sequence = start + k as u32;
    let second = at + usize::from(most) + Frames::HEADER;
    shards::put_parity(out, at, sequence, 0, datagrams, total);
    shards::put_parity(out, second, sequence + 1, 1, datagrams, total);
    out_lengths[k] = most + 8;
    out_lengths[k + 1] = most + 8;
}

// Group `group` of k datagrams, each of 24 to mtu bytes: k data frames and two parity frames, packed in `out`, with their lengths.
// Refuses 7, 12, 21, 23; then nothing changes.
pub fn write_group(
    group: u32,
    k: u32,
    mtu: u32,
    datagrams: &[u8],
    lengths: &[u16],
    out: &mut [u8],
    out_lengths: &mut [u16],
) -> Answer
    ensures { Gives
        (write_of group k mtu datagrams.now lengths.now
        (length out.old) (length out_lengths.old))
        out.old out_lengths.old result out.new out_lengths.new }
{
    let each = mtu as usize + Frames::HEADER;
    let datagrams = Packed::new(
        datagrams,
        lengths,
        Frames::FRAMES_MOST,
        each,
        out.len(),
        out_lengths.len(),
    )?;
    let shape = Shape::new(k, mtu)?;
    if lengths.len() != shape.k || !lent::lengths_ok(shape.mtu, lengths) {
        return Err(Refusal::NotAGroup);
    }
    let start = u64::from(group) * (u64::from(k) + 2);
    if Frames::GROUPS_END <= start {
        return Err(Refusal::LateGroup);
    }
    put_group(start as u32, datagrams, out, out_lengths);
    Ok(shape.k + 2)
}
