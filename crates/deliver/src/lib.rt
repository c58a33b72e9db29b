// The message at the front of the ready segments, which are words in a lent array: its size, whether there is room for it, and
// reading it out.
#![tactic(auto)]

ghost use Rattle.std.specs.Prelude.{◌≡◌, ◌+◌, ◌≤◌, map, sum, length};
ghost use Rattle.std.proofs.lemmas.List.Edits.{sets};
ghost use Rattle.session.specs.Reading.{front_count, readable, length_of, joined_in};
ghost use Rattle.words.specs.Words.{unpack, held_in};
ghost use Rattle.promises.specs.Answers.{count_outcome, size_of};
ghost use Rattle.arriving.specs.Arrivals.{Same, Whole, Fits};
ghost use Rattle.deliver.specs.Messages.{front_of, InPool, fitting_of, FitsIn, Taken};

use answers::Answer;
use arriving::Incoming;
use lists::Held;
use protocol::Refusal;

// The length of a word's segment.
fn len_of(word: u32) -> usize
    ensures { (result ≡ (unpack word).len) × (result ≤ 65535) }
{
    Held::from(word).len as usize
}

// The segments of the message at the front: the front segment's fragment number plus 1; 0 where none is ready.
fn front_count(ready: &[u32]) -> usize
    ensures { result ≡ front_count (map unpack ready.now) }
{
    match ready.first() {
        Some(word) => Held::from(*word).fragment as usize + 1,
        None => 0,
    }
}

// Whether a message can be read.
pub fn readable(ready: &[u32]) -> bool
    ensures { result ≡ readable (map unpack ready.now) }
{
    let k = front_count(ready);
    (0 < k) & (k <= ready.len())
}

// The length of all these segments.
fn total(words: &[u32]) -> usize
    requires { length words.now ≤ 128 }
    ensures { result ≡ sum (map (λ word. (unpack word).len) words.now) }
{
    words.iter().map(|word| len_of(*word)).sum()
}

// The payloads of all these segments are stored in `out`, one behind the other.
fn copy_out(pool: &[u8], mss: usize, words: &[u32], out: &mut [u8])
    requires { InPool mss pool.now (map unpack words.now) × (length_of (map unpack words.now) ≤ length out.old) }
    ensures { out.new ≡ sets out.old 0 (joined_in mss pool.now (map unpack words.now)) }
{
    let mut at = 0;
    for word in words {
        let held = Held::from(*word);
        let len = held.len as usize;
        pools::copy_part(pool, held.slot as usize * mss, len, out, at);
        at += len;
    }
}

// The length of the message at the front; 9 where none can be read.
pub fn front_size(ready: &[u32]) -> Answer<usize>
    requires { length ready.now ≤ 128 }
    ensures { count_outcome result ≡ size_of (map unpack ready.now) }
{
    if !readable(ready) {
        return Err(Refusal::NoMessage);
    }
    let k = front_count(ready);
    Ok(total(&ready[..k]))
}

// The same of the first n words, and 7 where it is longer than the room. An array and a count: the front of an array behind two
// references gets no generated proof.
pub fn fitting(ready: &[u32; 128], n: usize, room: usize) -> Answer<usize>
    requires { n ≤ 128 }
    ensures { count_outcome result ≡ fitting_of (held_in ready.now n) room }
{
    let size = front_size(&ready[..n])?;
    if room < size {
        return Err(Refusal::ShortPart);
    }
    Ok(size)
}

// The message at the front of n ready segments, for which there is room, is stored at the start of `out`. How many segments it has.
fn copy_front(pool: &[u8], mss: usize, ready: &[u32; 128], n: usize, out: &mut [u8]) -> usize
    requires { (n ≤ 128) × InPool mss pool.now (held_in ready.now n) × FitsIn (held_in ready.now n) (length out.old) }
    ensures count { (result ≡ front_count (held_in ready.now n)) × (result ≤ n) }
    ensures bytes { out.new ≡ sets out.old 0 (joined_in mss pool.now (front_of (held_in ready.now n))) }
{
    let front = &ready[..n];
    let k = front_count(front);
    copy_out(pool, mss, &front[..k], out);
    k
}

// The same of the receiving half. Its segments are freed, and waiting ones become ready.
pub fn take(half: &mut Incoming, mss: usize, pool: &[u8], out: &mut [u8])
    requires { Whole half.old × Fits half.old.arrival
        × InPool mss pool.now (held_in half.old.ready.now half.old.arrival.ready)
        × FitsIn (held_in half.old.ready.now half.old.arrival.ready) (length out.old) }
    ensures same { Same half.old half.new }
    ensures takes { Taken half.old.arrival mss half.old.ready.now half.old.waiting.now half.old.numbers.now pool.now out.old
        half.new.arrival half.new.ready.now half.new.waiting.now half.new.numbers.now out.new }
{
    let n = half.arrival.ready;
    let ready = &mut *half.ready;
    let k = copy_front(pool, mss, ready, n, out);
    half.free(k);
}
