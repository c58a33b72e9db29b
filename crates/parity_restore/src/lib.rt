// The data shards that are lost, at most two, from those that are held.
#![tactic(auto)]

ghost use Rattle.std.specs.Prelude.{◌≡◌, ◌+◌, ◌≤◌, ◌<◌, length, get_or};
ghost use Rattle.galois.specs.Field.{plus};
ghost use Rattle.rows.specs.Rows.{Row};
ghost use Rattle.frames.specs.Lists.{other};
ghost use Rattle.frames.specs.Reading.{rest, solved};
ghost use Rattle.parity_scan.specs.Held.{shard_in, sized, Inside};
ghost use Rattle.parity_restore.specs.Restored.{place, lost, Within, Restored};

use parity_scan::held::Held;

// The shard that is held for place p is added to the row.
fn add_held(row: &mut [u8], s: &[u8], held: &Held, p: usize)
    requires { (p < 12) × Inside s.now held.now × Within held.now (length row.old) }
    ensures { Row (λ x. plus (get_or row.old x 0) (get_or (shard_in s.now held.now p) x 0))
        (length row.old) row.new }
{
    if let Some(shard) = held[p] {
        rows::add(row, 0, &s[shard.at..shard.at + shard.size]);
    }
}

// Parity w less the data shards that are held: the weighed sum of what is lost.
fn rest_row(w: usize, k: usize, s: &[u8], held: &Held, row: &mut [u8])
    requires { (w < 2) × (k ≤ 10) × Inside s.now held.now × Within held.now (length row.old) }
    ensures { Row (rest w k (shard_in s.now held.now)) (length row.old) row.new }
{
    rows::clear(row);
    for p in (0..k).rev() {
        rows::step(w, row);
        add_held(row, s, held, p);
    }
    add_held(row, s, held, k + w);
}

// The last place below k, other than i, of which nothing is held.
pub fn other_lost(held: &Held, i: Option<usize>, k: usize) -> Option<usize>
    requires { k ≤ 10 }
    ensures { result ≡ lost (other (sized held.now) (place i) k) }
{
    for p in (0..k).rev() {
        if held[p].is_none() && i != Some(p) {
            return Some(p);
        }
    }
    None
}

// The shard at place i, the only one that is lost: by the first parity where it is held, else by the second.
fn solve_one(k: usize, s: &[u8], held: &Held, i: usize, row: &mut [u8])
    requires { (k ≤ 10) × Inside s.now held.now × Within held.now (length row.old) }
    ensures { Row (solved k (shard_in s.now held.now) i 12) (length row.old) row.new }
{
    if held[k].is_some() {
        rest_row(0, k, s, held, row);
        return;
    }
    rest_row(1, k, s, held, row);
    rows::multiply(row, galois::inverse(galois::power(i)));
}

// The shards at places i and j, the two that are lost.
fn solve_two(k: usize, s: &[u8], held: &Held, i: usize, j: usize, a: &mut [u8], b: &mut [u8])
    requires { (k ≤ 10) × Inside s.now held.now × Within held.now (length a.old) × (length b.old ≡ length a.old)
        × (i < 10) × (j < 10) × (i ≡ j → ⊥) }
    ensures first { Row (solved k (shard_in s.now held.now) i j) (length a.old) a.new }
    ensures second { Row (solved k (shard_in s.now held.now) j i) (length a.old) b.new }
{
    let g = galois::power(j);
    let d = galois::inverse(galois::add(galois::power(i), g));
    rest_row(1, k, s, held, a);
    rest_row(0, k, s, held, b);
    rows::add_multiple(a, g, b);
    rows::multiply(a, d);
    rows::add(b, 0, a);
}

// What is lost of a group: the shards at places i and j. The rows differ in each call, so k, s and held stay arguments of their own.
pub fn restore(
    k: usize,
    s: &[u8],
    held: &Held,
    i: Option<usize>,
    j: Option<usize>,
    a: &mut [u8],
    b: &mut [u8],
)
    requires { (k ≤ 10) × Inside s.now held.now × Within held.now (length a.old) × (length b.old ≡ length a.old)
        × (i ≡ lost (other (sized held.now) 12 k)) × (j ≡ lost (other (sized held.now) (place i) k)) }
    ensures { Restored k (shard_in s.now held.now) (place i) (place j) (length a.old) a.new b.new }
{
    match (i, j) {
        (None, _) => {}
        (Some(i), None) => solve_one(k, s, held, i, a),
        (Some(i), Some(j)) => solve_two(k, s, held, i, j, a, b),
    }
}
