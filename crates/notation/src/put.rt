// Text put into lent output at a place, as far as there is room; the answer is the place behind it.
ghost use Rattle.std.specs.Prelude.{◌≡◌, [], ◌∷◌, ◌<◌};
ghost use Rattle.notation.specs.Decimal.{decimal};
ghost use Rattle.notation.specs.Hex.{hex_digit, hex_of, bytes_word};
ghost use Rattle.notation.specs.Puts.{Put};

pub fn byte(out: &mut [u8], at: usize, b: u8) -> usize
    ensures { Put out.old at (b ∷ []) result out.new }
{
    if at < out.len() {
        out[at] = b;
        return at + 1;
    }
    at
}

pub fn bytes(out: &mut [u8], at: usize, s: &[u8]) -> usize
    ensures { Put out.old at s.now result out.new }
{
    let mut here = at;
    for b in s {
        here = byte(out, here, *b);
    }
    here
}

// The digits of n, the highest first and without leading zeros.
pub fn number(out: &mut [u8], at: usize, n: u64) -> usize
    ensures { Put out.old at (decimal n) result out.new }
{
    if n < 10 {
        return byte(out, at, b'0' + (n as u8));
    }
    let high = number(out, at, n / 10);
    byte(out, high, b'0' + (n % 10) as u8)
}

// The digit of a number below 16, in lower case.
fn hex_digit(n: u8) -> u8
    requires { n < 16 }
    ensures { result ≡ hex_digit n }
{
    if n < 10 { b'0' + n } else { b'a' + (n - 10) }
}

// The two digits of a byte.
fn hex_byte(out: &mut [u8], at: usize, b: u8) -> usize
    ensures { Put out.old at (hex_of (b ∷ [])) result out.new }
{
    let next = byte(out, at, hex_digit(b / 16));
    byte(out, next, hex_digit(b % 16))
}

// Bytes in hex, two digits each; `-` where there are none.
pub fn hex(out: &mut [u8], at: usize, s: &[u8]) -> usize
    ensures { Put out.old at (bytes_word s.now) result out.new }
{
    if s.is_empty() {
        return byte(out, at, b'-');
    }
    let mut here = at;
    for b in s {
        here = hex_byte(out, here, *b);
    }
    here
}
