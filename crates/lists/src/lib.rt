// Segments queued, outstanding, ready and waiting: their types, and in specs/ the lists of them. A list is the front of an array,
// in list order, up to its count; what stands past the count is not state.
#![tactic(auto)]

ghost use Rattle.std.specs.Prelude.{◌≡◌, ◌<◌};
ghost use Rattle.lists.specs.Views.{unpack};

use timing::Record;

// A segment held in a slot of a pool: its slot, its length in bytes and its fragment number.
#[repr(C)]
#[derive(Clone, Copy)]
pub struct Held {
    pub slot: u16,
    pub len: u16,
    pub fragment: u8,
}

// The segment that a word stands for.
impl From<u32> for Held {
    ghost from_gives = { λ word held. held ≡ unpack word };

    fn from(word: u32) -> Held {
        Held {
            slot: (word % 256) as u16,
            len: (word / 65536) as u16,
            fragment: (word / 256 % 256) as u8,
        }
    }
}

impl Held {
    // The segment as one word. Its slot is below 256.
    pub fn word(self) -> u32
        requires { self.slot < 256 }
        ensures { unpack result ≡ self }
    {
        let slot = self.slot as u32;
        let fragment = self.fragment as u32;
        let len = self.len as u32;
        slot + 256 * fragment + 65536 * len
    }
}

// A segment received and not yet in order.
#[repr(C)]
#[derive(Clone, Copy)]
pub struct Waiting {
    pub number: u32,
    pub held: Held,
}

// A segment sent and not acknowledged, as the control block keeps it: its number is in its record.
#[repr(C)]
#[derive(Clone, Copy)]
pub struct Outstanding {
    pub held: Held,
    pub transmissions: u8,
}

// The same with its record of the lent table.
#[repr(C)]
#[derive(Clone, Copy)]
pub struct Sent {
    pub held: Held,
    pub transmissions: u8,
    pub record: Record,
}

// A list in the front of an array, up to its count.
#[repr(C)]
#[derive(Clone, Copy)]
pub struct Listed<T, const N: usize> {
    pub at: [T; N],
    pub count: usize,
}

// The receiving half's lists with the number expected next: segments ready to be read, and segments that wait.
#[repr(C)]
#[derive(Clone, Copy)]
pub struct Receiving {
    pub next: u32,
    pub ready: Listed<Held, 128>,
    pub waiting: Listed<Waiting, 128>,
}

// What acknowledges an outstanding segment: an arriving una, or an arriving ack's number.
#[derive(Clone, Copy)]
pub enum Acknowledges {
    Una(u32),
    Ack(u32),
}
