// The reader of a group: from frames in any order, the k datagrams by place.
#![tactic(auto)]

mod output;
mod verify;

ghost use Rattle.std.specs.Prelude.{◌≡◌, true, ◌*◌, ◌≤◌, length};
ghost use Rattle.frames.specs.Lists.{parts};
ghost use Rattle.frames.specs.Outcomes.{Gives};
ghost use Rattle.frames.specs.Reading.{read_group, read_of};
ghost use Rattle.parity_scan.specs.Held.{Found};

use frames::lent::Packed;
use frames::{Answer, Frames, Refusal, Shape};
use parity_found::found::{self, Group};
use parity_scan::scan::{self, Scanned};

// What is left to do once each frame has passed by itself.
fn read_held<'a>(
    frames: Packed<'a>,
    shape: Shape,
    scanned: Scanned,
    out: &mut [u8],
    out_lengths: &mut [u16],
) -> Answer
    requires { Found frames.bytes.now frames.lengths.now shape.k shape.mtu scanned.group scanned
        × (10 * shape.mtu ≤ length out.old) × (10 ≤ length out_lengths.old) }
    ensures { Gives (read_group shape.k shape.mtu scanned.group (parts frames.entry.bytes.now frames.entry.lengths.now))
        out.old out_lengths.old result out.new out_lengths.new }
{
    let k = shape.k;
    let held = scanned.held;
    if scan::count_held(&held, k + 2) < k {
        return Err(Refusal::TooFewFrames);
    }
    let first = parity_restore::other_lost(&held, None, k);
    let second = parity_restore::other_lost(&held, first, k);
    let mut a = found::blank();
    let mut b = found::blank();
    let size = shape.mtu + 2;
    parity_restore::restore(
        k,
        frames.bytes,
        &held,
        first,
        second,
        &mut a[..size],
        &mut b[..size],
    );
    let g = Group {
        shape,
        frames,
        held,
        first,
        second,
        a: &a[..size],
        b: &b[..size],
    };
    if !found::lens_ok(&g) || !verify::all_held(&g, scanned.group) {
        return Err(Refusal::NotAGroup);
    }
    output::put_found(&g, out, out_lengths);
    Ok(k)
}

// The k datagrams of a group, from frames of it in any order, packed in `out` by place, with their lengths.
// Refuses 7, 12, 21, 22, 21; then nothing changes.
pub fn read_group(
    k: u32,
    mtu: u32,
    frames: &[u8],
    lengths: &[u16],
    out: &mut [u8],
    out_lengths: &mut [u16],
) -> Answer
    ensures { Gives
        (read_of k mtu frames.now lengths.now (length out.old) (length out_lengths.old))
        out.old out_lengths.old result out.new out_lengths.new }
{
    let frames = Packed::new(
        frames,
        lengths,
        Frames::DATA_MOST,
        mtu as usize,
        out.len(),
        out_lengths.len(),
    )?;
    let shape = Shape::new(k, mtu)?;
    let scanned = scan::scan(frames, shape)?;
    read_held(frames, shape, scanned, out, out_lengths)
}
