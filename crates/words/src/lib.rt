// Lists in the front of lent arrays, changed in place.
#![tactic(auto)]

ghost use Rattle.std.specs.Prelude.{◌≡◌, [], ◌∷◌, ◌++◌, ◌+◌, ◌-◌, ◌≤◌, ◌<◌, take, drop, length};
ghost use Rattle.lists.specs.Orders.{waiting_offset, insert};
ghost use Rattle.words.specs.Words.{Front, waiting_at, waiting_in, Sides, Sought};

use protocol::serial;

// One word more.
pub fn append<const N: usize>(list: &mut [u32; N], count: usize, word: u32)
    requires { count < N }
    ensures { Front N list.new (count + 1) (take count list.old ++ (word ∷ [])) }
{
    list[count] = word;
}

// The first k of n words are dropped.
pub fn drop_first<const N: usize>(list: &mut [u32; N], n: usize, k: usize)
    requires { (n ≤ N) × (k ≤ n) }
    ensures { Front N list.new (n - k) (drop k (take n list.old)) }
{
    for i in 0..n - k {
        list[i] = list[k + i];
    }
}

// A word goes in at index i of n.
pub fn insert_at<const N: usize>(list: &mut [u32; N], n: usize, i: usize, word: u32)
    requires { (n < N) × (i ≤ n) }
    ensures { Front N list.new (n + 1)
        (take i (take n list.old) ++ (word ∷ drop i (take n list.old))) }
{
    let mut carried = word;
    for j in i..n {
        let next = list[j];
        list[j] = carried;
        carried = next;
    }
    list[n] = carried;
}

// Where a number with this offset from base stands, or else where one goes in: at the first whose offset is not below it.
pub fn place(numbers: &[u32], base: u32, offset: u32) -> Result<usize, usize>
    ensures { Sought base offset numbers.now (length numbers.now) result }
{
    for (i, number) in numbers.iter().enumerate() {
        let there = serial::difference(*number, base);
        if offset <= there {
            return if there == offset { Ok(i) } else { Err(i) };
        }
    }
    Err(numbers.len())
}

// A segment goes in at its place in the order from base; nothing changes where its number is held. The new count.
pub fn insert(
    words: &mut [u32; 128],
    numbers: &mut [u32; 128],
    n: usize,
    base: u32,
    word: u32,
    number: u32,
) -> usize
    requires { (n ≤ 128)
        × (length (insert (waiting_offset base) (waiting_at word number) (waiting_in words.old numbers.old n)) ≤ 128) }
    ensures { Sides waiting_at 128 words.new numbers.new result
        (insert (waiting_offset base) (waiting_at word number) (waiting_in words.old numbers.old n)) }
{
    let offset = serial::difference(number, base);
    match place(&numbers[..n], base, offset) {
        Ok(_) => n,
        Err(i) => {
            insert_at(words, n, i, word);
            insert_at(numbers, n, i, number);
            n + 1
        }
    }
}
