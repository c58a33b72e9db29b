// The words of a line.
ghost use Rattle.std.specs.Prelude.{◌≡◌, length, drop};
ghost use Rattle.script.specs.Commands.{up_to};

pub(crate) const SPACE: u8 = 32;

// A slice up to the first such byte, and the rest, from that byte on.
pub fn split_before(s: &[u8], stop: u8) -> (&[u8], &[u8])
    ensures { (result.0.now ≡ up_to stop s.now) × (result.1.now ≡ drop (length (up_to stop s.now)) s.now) }
{
    let end = s.iter().position(|c| *c == stop).unwrap_or(s.len());
    s.split_at(end)
}
