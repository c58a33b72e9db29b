// The slots held of a pool, by marks in a lent array: the mark of a free slot is 0.
//
// Marking tells whether a slot stands twice, with no early exit. While a call takes slots, lowest first, marks are not updated: the
// search for the next free slot goes on behind the last one taken.
#![tactic(auto)]

ghost use Rattle.std.specs.Prelude.{◌≡◌, true, ◌≤◌, ◌<◌, map};
ghost use Rattle.slots.specs.Slots.{slots_of, all_below};
ghost use Rattle.words.specs.Words.{unpack};
ghost use Rattle.marks.specs.Marks.{Marks, next_free};

use lists::Held;

// The slots of words are marked. Whether none of them was marked before, and none stands twice.
pub fn mark<const S: usize>(marks: &mut [u8; S], words: &[u32]) -> bool
    requires { all_below S (slots_of (map unpack words.now)) ≡ true }
    ensures { Marks S marks.old (slots_of (map unpack words.now)) marks.new result }
{
    let mut twice = 0;
    for word in words {
        let held = Held::from(*word);
        let mark = &mut marks[usize::from(held.slot)];
        twice |= *mark;
        *mark = 1;
    }
    twice == 0
}

// The first slot from `from` on that is not marked; there is one. It is often `from`, which is looked at first: the compiler makes a call
// of the loop.
pub fn free_from<const S: usize>(marks: &[u8; S], from: usize) -> usize
    requires { (S ≤ 256) × (next_free marks.now from < S) }
    ensures { result ≡ next_free marks.now from }
{
    if marks[from] == 0 {
        return from;
    }
    let mut slot = from;
    while marks[slot] != 0 {
        slot += 1;
    }
    slot
}
