// Sequence numbers and times: 32-bit numbers that wrap.
ghost use Rattle.std.specs.Prelude.{◌≡◌};
ghost use Rattle.protocol.specs.Serial.{plus, minus, signed, is_before, is_after, is_due};

// a + b, modulo 2^32.
pub fn sum(a: u32, b: u32) -> u32
    ensures { result ≡ plus a b }
{
    a.wrapping_add(b)
}

// a - b, modulo 2^32.
pub fn difference(a: u32, b: u32) -> u32
    ensures { result ≡ minus a b }
{
    a.wrapping_sub(b)
}

// A number read as signed.
#[tactic(auto, unfolding(crate::specs::Serial::signed))]
pub fn read_signed(x: u32) -> i64
    ensures { result ≡ signed x }
{
    i64::from(x.cast_signed())
}

#[tactic(auto, unfolding(crate::specs::Serial::is_before))]
pub fn before(a: u32, b: u32) -> bool
    ensures { result ≡ is_before a b }
{
    read_signed(difference(a, b)) < 0
}

#[tactic(auto, unfolding(crate::specs::Serial::is_after))]
pub fn after(a: u32, b: u32) -> bool
    ensures { result ≡ is_after a b }
{
    0 < read_signed(difference(a, b))
}

// Whether the time d is due at t.
#[tactic(auto, unfolding(crate::specs::Serial::is_due))]
pub fn due(t: u32, d: u32) -> bool
    ensures { result ≡ is_due t d }
{
    0 <= read_signed(difference(t, d))
}
