// Numbers and bytes as text: numbers in decimal, bytes in hex of two digits each. `put` writes them into lent output, and
// `read` reads them from a word. `input` fills lent room with what a program is given.
#![tactic(auto)]

pub mod input;
pub mod put;
pub mod read;

ghost use Rattle.std.specs.Prelude.{◌≡◌, take};

// The first `count` items of a list, or all of it.
pub fn front<T>(list: &[T], count: usize) -> &[T]
    ensures { result.now ≡ take count list.now }
{
    &list[..count.min(list.len())]
}
