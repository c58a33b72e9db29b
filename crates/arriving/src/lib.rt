// The lists of the receiving half in place: waiting segments become ready; the segments of a message that was read are freed.
#![tactic(auto)]

ghost use Rattle.std.specs.Prelude.{◌≡◌, ◌&&◌, ◌||◌, List, ◌++◌, ℕ, ◌+◌, ◌≤◌, take, length, eqb, ltb};
ghost use Rattle.lists.specs.Receiving.{run_of};
ghost use Rattle.lists.specs.Views.{held_of, waiting_of};
ghost use Rattle.words.specs.Words.{paired, waiting_at, Front};
ghost use Rattle.control.specs.Views.{is_set};
ghost use Rattle.arriving.specs.Arrivals.{ready_list, waiting_list, Same, Whole, Fits, Advanced, Freed};

use control::Arrival;
use protocol::serial;
use words::drop_first;

// The receiving half in lent parts: its numbers and its lists.
#[derive(Drop)]
pub struct Incoming<'a> {
    pub arrival: Arrival,
    pub ready: &'a mut [u32; 128],
    pub waiting: &'a mut [u32; 128],
    pub numbers: &'a mut [u32; 128],
}

// How many of the first n numbers, from the front on, are next, next + 1 and so on.
fn run(numbers: &[u32; 128], n: usize, next: u32) -> usize
    requires { n ≤ 128 }
    ensures { (result ≤ n) × ((words : List ℕ) → length words ≡ 128 →
        result ≡ run_of next (take n (paired waiting_at words numbers.now))) }
{
    let mut expected = next;
    for i in 0..n {
        if serial::difference(numbers[i], expected) != 0 {
            return i;
        }
        expected = serial::sum(expected, 1);
    }
    n
}

// The first k words of another list are put behind n of this one.
fn append_first(list: &mut [u32; 128], n: usize, other: &[u32; 128], k: usize)
    requires { n + k ≤ 128 }
    ensures { Front 128 list.new (n + k) (take n list.old ++ take k other.now) }
{
    for i in 0..k {
        list[n + i] = other[i];
    }
}

// Whether a tell is wanted: it was, or 128 were ready and fewer are now.
fn tell_after(tell: u8, before: usize, after: usize) -> u8
    ensures { is_set result ≡ (is_set tell || (eqb before 128 && ltb after 128)) }
{
    if (before == 128) & (after < 128) {
        1
    } else {
        tell
    }
}

impl<'a> Incoming<'a> {
    // The segment with the number expected next becomes ready, repeatedly, while fewer than 128 are ready.
    pub fn advance(&mut self)
        requires { Whole self.old × Fits self.old.arrival }
        ensures same { Same self.old self.new }
        ensures advances { Advanced self.old.arrival self.old.arrival.expected
            (held_of (ready_list self.old.ready.now self.old.arrival.ready))
            (waiting_of (waiting_list self.old.waiting.now self.old.numbers.now self.old.arrival.waiting))
            self.new.arrival self.new.ready.now self.new.waiting.now self.new.numbers.now }
    {
        let expected = self.arrival.expected;
        let n = self.arrival.ready;
        let m = self.arrival.waiting;
        let most = (128 - n).min(m);
        let numbers = &mut *self.numbers;
        let k = run(numbers, most, expected);
        if k == 0 {
            return;
        }
        let waiting = &mut *self.waiting;
        append_first(self.ready, n, waiting, k);
        drop_first(waiting, m, k);
        drop_first(numbers, m, k);
        self.arrival = Arrival {
            expected: serial::sum(expected, k as u32),
            ready: n + k,
            waiting: m - k,
            ..self.arrival
        };
    }

    // The first k ready segments are freed, and waiting ones become ready. A tell is wanted if 128 were ready and fewer are now.
    pub fn free(&mut self, k: usize)
        requires { Whole self.old × Fits self.old.arrival × (k ≤ self.old.arrival.ready) }
        ensures same { Same self.old self.new }
        ensures frees { Freed self.old.arrival k self.old.ready.now self.old.waiting.now self.old.numbers.now
            self.new.arrival self.new.ready.now self.new.waiting.now self.new.numbers.now }
    {
        let n = self.arrival.ready;
        let tell = self.arrival.tell;
        drop_first(self.ready, n, k);
        self.arrival.ready = n - k;
        self.advance();
        self.arrival.tell = tell_after(tell, n, self.arrival.ready);
    }
}
