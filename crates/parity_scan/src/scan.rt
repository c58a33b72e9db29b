// Frames checked, and their shards noted.
ghost use Rattle.std.specs.Prelude.{◌≡◌, ◌+◌, ◌≤◌, ◌<◌, length};
ghost use Rattle.frames.specs.Lists.{parts, count};
ghost use Rattle.frames.specs.Frames.{type_at};
ghost use Rattle.frames.specs.Reading.{frame_ok, group_of, place_of, first_group};
ghost use Rattle.parity_scan.specs.Held.{noted, sized, Scans};

use crate::held::{Held, Span};
use frames::lent::Packed;
use frames::{Frames, Refusal, Shape};
use wire::number::Number;

// What a scan of the frames finds: their group, and what is held.
#[derive(Clone, Copy)]
pub struct Scanned {
    pub group: usize,
    pub held: Held,
}

// The group of a frame, and its place.
#[tactic(auto, unfolding(frames::specs::Reading::group_of))]
fn group_in(frame: &[u8], k: usize) -> usize
    requires { (4 ≤ length frame.now) × (k ≤ 10) }
    ensures { result ≡ group_of k frame.now }
{
    u32::read(frame, 0) as usize / (k + 2)
}

#[tactic(auto, unfolding(frames::specs::Reading::place_of))]
pub fn place_in(frame: &[u8], k: usize) -> usize
    requires { (4 ≤ length frame.now) × (k ≤ 10) }
    ensures { (result ≡ place_of k frame.now) × (result < k + 2) }
{
    u32::read(frame, 0) as usize % (k + 2)
}

// The type of a frame at place p.
#[tactic(auto, unfolding(frames::specs::Frames::type_at))]
fn type_at(k: usize, p: usize) -> u16
    ensures { result ≡ type_at k p }
{
    if p < k { Frames::DATA } else { Frames::PARITY }
}

// The frame passes by itself, and is of this group.
fn frame_ok(frame: &[u8], shape: Shape, group: usize) -> bool
    ensures { result ≡ frame_ok shape.k shape.mtu group frame.now }
{
    let n = frame.len();
    if n < 32 {
        return false;
    }
    let place = place_in(frame, shape.k);
    let short = n <= shape.mtu + Frames::HEADER;
    let same_group = group_in(frame, shape.k) == group;
    let right_type = u16::read(frame, 4) == type_at(shape.k, place);
    let len = usize::from(u16::read(frame, 6));
    short & same_group & right_type & ((shape.k <= place) | (len == n - Frames::SHARD))
}

// A shard is held for place p, unless one is already.
fn note(held: &mut Held, p: usize, shard: Span)
    requires { p < 12 }
    ensures { held.new ≡ noted held.old p shard }
{
    if held[p].is_none() {
        held[p] = Some(shard);
    }
}

// The frames in turn, all of one group.
fn scan_from<'a>(frames: Packed<'a>, shape: Shape, group: usize) -> Result<Scanned, Refusal>
    ensures { Scans frames.entry.bytes.now frames.entry.lengths.now shape.k shape.mtu group result }
{
    let mut held = [None; 12];
    let mut at = 0;
    for n in frames.lengths.iter() {
        let size = usize::from(*n);
        let frame = &frames.bytes[at..at + size];
        if !frame_ok(frame, shape, group) {
            return Err(Refusal::NotAGroup);
        }
        let shard = Span {
            at: at + Frames::SHARD,
            size: size - Frames::SHARD,
        };
        note(&mut held, place_in(frame, shape.k), shard);
        at += size;
    }
    Ok(Scanned { group, held })
}

// All frames, checked by themselves and against the first one's group, and what is held.
pub fn scan<'a>(frames: Packed<'a>, shape: Shape) -> Result<Scanned, Refusal>
    ensures { Scans frames.entry.bytes.now frames.entry.lengths.now shape.k shape.mtu
        (first_group shape.k (parts frames.entry.bytes.now frames.entry.lengths.now)) result }
{
    let Some(first) = frames.lengths.first() else {
        return scan_from(frames, shape, 0);
    };
    let size = usize::from(*first);
    if size < 32 {
        return Err(Refusal::NotAGroup);
    }
    scan_from(frames, shape, group_in(&frames.bytes[..size], shape.k))
}

// How many of the places below n are held.
pub fn count_held(held: &Held, n: usize) -> usize
    requires { n ≤ 12 }
    ensures { result ≡ count (sized held.now) n }
{
    held[..n].iter().filter(|shard| shard.is_some()).count()
}
