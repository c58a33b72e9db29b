// A group whose shards are held or restored.
ghost use Rattle.std.specs.Prelude.{◌≡◌, true, ◌<◌, length};
ghost use Rattle.frames.specs.Lists.{lengths_of, largest};
ghost use Rattle.frames.specs.Frames.{shard};
ghost use Rattle.frames.specs.Outcomes.{lengths_ok};
ghost use Rattle.parity_found.specs.Ready.{Ready, Whole, found_in, len_in, datagram_in};

use frames::Shape;
use frames::lent::Packed;
use parity_scan::held::Held;
use wire::number::Number;

// Its settings, the packed frames, where the shards that are held lie among them, the places lost, and the shards restored for these.
#[derive(Clone, Copy)]
pub struct Group<'a> {
    pub shape: Shape,
    pub frames: Packed<'a>,
    pub held: Held,
    pub first: Option<usize>,
    pub second: Option<usize>,
    pub a: &'a [u8],
    pub b: &'a [u8],
}

// Room for a shard of the largest mtu.
pub fn blank() -> [u8; 1402]
    ensures { length result ≡ 1402 }
{
    [0u8; 1402]
}

// The shard at place p; where it was restored, bytes may stand behind it.
fn found_shard<'a>(g: &Group<'a>, p: usize) -> &'a [u8]
    requires { Ready g.now × (p < g.now.shape.k) }
    ensures { Whole g.now p result.now }
{
    if g.first == Some(p) {
        return g.a;
    }
    if g.second == Some(p) {
        return g.b;
    }
    let shard = g.held[p].unwrap();
    let bytes = g.frames.bytes;
    &bytes[shard.at..shard.at + shard.size]
}

// The len of the shard at place p.
pub fn len_of<'a>(g: &Group<'a>, p: usize) -> usize
    requires { Ready g.now × (p < g.now.shape.k) }
    ensures { (result ≡ len_in g.now p) × (result < 65536) }
{
    usize::from(u16::read(found_shard(g, p), 0))
}

// The shard at place p as its len says.
pub fn trimmed<'a>(g: &Group<'a>, p: usize) -> &'a [u8]
    requires { Ready g.now × (p < g.now.shape.k) × (lengths_ok g.now.shape.mtu (lengths_of (found_in g.now)) ≡ true) }
    ensures { result.now ≡ shard (datagram_in g.now p) }
{
    let t = found_shard(g, p);
    let n = usize::from(u16::read(t, 0));
    &t[..n]
}

// Each datagram found has 24 to mtu bytes.
pub fn lens_ok<'a>(g: &Group<'a>) -> bool
    requires { Ready g.now }
    ensures { result ≡ lengths_ok g.now.shape.mtu (lengths_of (found_in g.now)) }
{
    for p in 0..g.shape.k {
        let n = len_of(g, p);
        if n < 26 || g.shape.mtu < n - 2 {
            return false;
        }
    }
    true
}

// The size of the largest datagram found.
pub fn most_found<'a>(g: &Group<'a>) -> usize
    requires { Ready g.now }
    ensures { (result ≡ largest (lengths_of (found_in g.now))) × (result < 65536) }
{
    let mut most: usize = 0;
    for p in 0..g.shape.k {
        most = most.max(len_of(g, p).saturating_sub(2));
    }
    most
}
