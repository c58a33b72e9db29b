// The parity frames of a group.
ghost use Rattle.std.specs.Prelude.{◌≡◌, ◌+◌, ◌≤◌, ◌<◌, length, get_or};
ghost use Rattle.std.proofs.lemmas.List.Edits.{sets};
ghost use Rattle.galois.specs.Field.{plus};
ghost use Rattle.rows.specs.Rows.{Row};
ghost use Rattle.frames.specs.Lists.{add_up, largest, parts};
ghost use Rattle.frames.specs.Frames.{parity_type, shard, parity_shard, frame};

use frames::Frames;
use frames::lent::Packed;
use wire::number::Number;

// The largest of the lengths.
pub fn largest_of(lengths: &[u16]) -> u16
    ensures { result ≡ largest lengths.now }
{
    lengths.iter().copied().max().unwrap_or(0)
}

// The data shard of the datagram is added to the row.
fn add_shard(row: &mut [u8], datagram: &[u8])
    requires { (length datagram.now + 2 ≤ length row.old) × (length datagram.now + 2 < 65536) }
    ensures { Row (λ x. plus (get_or row.old x 0) (get_or (shard datagram.now) x 0)) (length row.old) row.new }
{
    let n = datagram.len() + 2;
    row[0] = galois::add(row[0], (n % 256) as u8);
    row[1] = galois::add(row[1], (n / 256 % 256) as u8);
    rows::add(row, 2, datagram);
}

// Parity shard w of the packed datagrams, in a row as long as their longest shard.
fn parity_row<'a>(w: usize, datagrams: Packed<'a>, total: usize, row: &mut [u8])
    requires { (total ≡ add_up datagrams.lengths.now) × (length row.old ≡ largest datagrams.lengths.now + 2)
        × (largest datagrams.lengths.now + 2 < 65536) }
    ensures { row.new ≡ parity_shard w (parts datagrams.entry.bytes.now datagrams.entry.lengths.now) }
{
    rows::clear(row);
    let mut from = total;
    for p in (0..datagrams.lengths.len()).rev() {
        let size = usize::from(datagrams.lengths[p]);
        from -= size;
        rows::step(w, row);
        add_shard(row, &datagrams.bytes[from..from + size]);
    }
}

// Parity frame w at `at`.
pub fn put_parity<'a>(
    out: &mut [u8],
    at: usize,
    sequence: u32,
    w: usize,
    datagrams: Packed<'a>,
    total: usize,
)
    requires { (total ≡ add_up datagrams.lengths.now) × (at + (largest datagrams.lengths.now + 8) ≤ length out.old)
        × (largest datagrams.lengths.now + 8 < 65536) }
    ensures { let ds = parts datagrams.entry.bytes.now datagrams.entry.lengths.now in
        out.new ≡ sets out.old at (frame sequence parity_type (parity_shard w ds)) }
{
    let size = usize::from(largest_of(datagrams.lengths)) + 2;
    let shard = at + Frames::SHARD;
    sequence.put(out, at);
    Frames::PARITY.put(out, at + 4);
    parity_row(w, datagrams, total, &mut out[shard..shard + size]);
}
