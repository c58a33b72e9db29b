// Rows of bytes, added and multiplied byte by byte in the field of 256 elements.
#![tactic(auto)]

ghost use Rattle.std.specs.Prelude.{◌≡◌, ℕ, ◌+◌, ◌≤◌, ◌<◌, length, get_or};
ghost use Rattle.galois.specs.Field.{plus, double, mul};
ghost use Rattle.rows.specs.Rows.{Row, behind, stepped};

// Each byte becomes 0.
pub fn clear(row: &mut [u8])
    ensures { Row (λ x. 0) (length row.old) row.new }
{
    row.fill(0);
}

// `other` is added to the bytes from `at` on.
pub fn add(row: &mut [u8], at: usize, other: &[u8])
    requires { at + length other.now ≤ length row.old }
    ensures { Row (λ x. plus (get_or row.old x 0) (behind at other.now x))
        (length row.old) row.new }
{
    for (i, b) in other.iter().enumerate() {
        row[at + i] = galois::add(row[at + i], *b);
    }
}

// Each byte is doubled.
fn double(row: &mut [u8])
    ensures { Row (λ x. double (get_or row.old x 0)) (length row.old) row.new }
{
    for b in row.iter_mut() {
        *b = galois::double(*b);
    }
}

// One place back in parity w: in the second each byte is doubled.
pub fn step(w: usize, row: &mut [u8])
    ensures { Row (λ x. stepped w (get_or row.old x 0)) (length row.old) row.new }
{
    if w == 0 {
        return;
    }
    double(row)
}

// The products of c with each byte.
fn products(c: u8) -> [u8; 256]
    ensures { Row (λ x. mul c x) 256 result }
{
    let mut table = [0; 256];
    for b in 0..=u8::MAX {
        table[usize::from(b)] = galois::multiply(c, b);
    }
    table
}

// Each byte is multiplied with c.
pub fn multiply(row: &mut [u8], c: u8)
    ensures { Row (λ x. mul c (get_or row.old x 0)) (length row.old) row.new }
{
    let table = products(c);
    for b in row.iter_mut() {
        *b = table[usize::from(*b)];
    }
}

// c times `other` is added.
pub fn add_multiple(row: &mut [u8], c: u8, other: &[u8])
    requires { length other.now ≡ length row.old }
    ensures { Row (λ x. plus (get_or row.old x 0) (mul c (get_or other.now x 0)))
        (length row.old) row.new }
{
    let table = products(c);
    for (i, b) in other.iter().enumerate() {
        row[i] = galois::add(row[i], table[usize::from(*b)]);
    }
}
