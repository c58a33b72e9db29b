// Words read as numbers and as bytes.
ghost use Rattle.std.specs.Prelude.{◌≡◌, ◌-◌, ◌/◌, ◌≤◌, ◌<◌, true, false, MatchOption, length};
ghost use Rattle.std.proofs.lemmas.List.Edits.{sets};
ghost use Rattle.notation.specs.Words.{is_digit, leading_zero, number_of};
ghost use Rattle.notation.specs.Hex.{is_hex_digit, hex_value, is_hex, is_dash, unhex, ReadBytes};

// The value of a decimal digit.
fn digit(c: u8) -> Option<u32>
    ensures { MatchOption result (is_digit c ≡ false) (λ d. (is_digit c ≡ true) × (d ≡ c - 48)) }
{
    match c {
        b'0'..=b'9' => Some(u32::from(c - b'0')),
        _ => None,
    }
}

// Whether a word of two bytes or more starts with `0`.
fn leading_zero(s: &[u8]) -> bool
    ensures { result ≡ leading_zero s.now }
{
    2 <= s.len() && s[0] == b'0'
}

// A number in decimal, without sign or leading zeros, at most 4294967295.
pub fn number(s: &[u8]) -> Option<u32>
    ensures { result ≡ number_of s.now }
{
    if s.is_empty() || leading_zero(s) {
        return None;
    }
    let mut n: u32 = 0;
    for c in s {
        let digit = digit(*c)?;
        n = n.checked_mul(10)?.checked_add(digit)?;
    }
    Some(n)
}

fn is_hex_digit(c: u8) -> bool
    ensures { result ≡ is_hex_digit c }
{
    matches!(c, b'0'..=b'9' | b'a'..=b'f')
}

// The value of a digit; 0 where it is none.
#[tactic(auto, using(std::proofs::lemmas::Bool::Decides::nat_tests), unfolding(crate::specs::Hex::hex_value))]
fn hex_value(c: u8) -> u8
    ensures { (result ≡ hex_value c) × (result < 16) }
{
    match c {
        b'0'..=b'9' => c - b'0',
        b'a'..=b'f' => c - b'a' + 10,
        _ => 0,
    }
}

// Whether a word is digits, an even number of them.
fn is_hex(s: &[u8]) -> bool
    ensures { result ≡ is_hex s.now }
{
    s.len() % 2 == 0 && s.iter().all(|c| is_hex_digit(*c))
}

fn is_dash(s: &[u8]) -> bool
    ensures { result ≡ is_dash s.now }
{
    matches!(s, [b'-'])
}

// The bytes of a word of digits are stored at the start of `out`.
fn decode(s: &[u8], out: &mut [u8])
    requires { length s.now / 2 ≤ length out.old }
    ensures { out.new ≡ sets out.old 0 (unhex s.now) }
{
    for i in 0..s.len() / 2 {
        out[i] = 16 * hex_value(s[2 * i]) + hex_value(s[2 * i + 1]);
    }
}

// Bytes in lower-case hex, two digits each, or `-` for none, are stored at the start of `out`; the answer is their count.
// A word that is not of this form, or has more bytes than `out`, is none, and nothing is stored.
pub fn bytes(s: &[u8], out: &mut [u8]) -> Option<usize>
    ensures { ReadBytes s.now out.old result out.new }
{
    if is_dash(s) {
        return Some(0);
    }
    let n = s.len() / 2;
    if 0 < n && n <= out.len() && is_hex(s) {
        decode(s, out);
        return Some(n);
    }
    None
}
