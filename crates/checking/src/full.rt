// The slots of the receiving half, marked. Where every slot of the pool is held in list order none is held twice and none is free: then
// no segment is looked at on its own.
ghost use Rattle.std.specs.Prelude.{◌≡◌, ◌+◌, ◌≤◌, length};
ghost use Rattle.marks.specs.Marks.{none};
ghost use Rattle.checking.specs.Tests.{in_line, HeldOnce};

// Whether the slots of words are `from` and those after it, in order.
fn in_line(words: &[u32], from: u32) -> bool
    requires { from + length words.now ≤ 256 }
    ensures { result ≡ in_line from words.now }
{
    let mut fit = true;
    for (i, word) in words.iter().enumerate() {
        fit = fit & (*word % 256 == from + i as u32);
    }
    fit
}

// The slots of ready and waiting segments are marked. Whether none is held twice.
pub fn mark_held(ready: &[u32], waiting: &[u32], marks: &mut [u8; 256]) -> bool
    requires { (length ready.now ≤ 128) × (length waiting.now ≤ 128) × (marks.old ≡ none) }
    ensures { HeldOnce ready.now waiting.now marks.new result }
{
    let full = (ready.len() == 128) & (waiting.len() == 128);
    if full && in_line(ready, 0) & in_line(waiting, 128) {
        *marks = [1; 256];
        return true;
    }
    let first = marks::mark(marks, ready);
    let second = marks::mark(marks, waiting);
    first & second
}
