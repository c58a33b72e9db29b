// The control block of a link: small structs by value, and lists as arrays of numbers that are lent and changed in place.
//
// A held segment is one word (`lists`); the numbers of waiting segments and the transmissions of outstanding ones stand in
// arrays beside their words, and a count beside each array, as the C interface has it. The number, due time, timeout and skips of
// an outstanding segment are its record in the lent table.
#![tactic(auto)]

use congestion::Congestion;
use protocol::Settings;
use timing::{ProbeClock, RoundTrip};

// The sending half's numbers: snd_una, snd_nxt, the round trip, the peer's last window, the congestion window, and how many are queued and
// outstanding.
#[repr(C)]
#[derive(Clone, Copy, Default)]
pub struct Flight {
    pub una: u32,
    pub next: u32,
    pub rtt: RoundTrip,
    pub window: u16,
    pub congestion: Congestion,
    pub queued: usize,
    pub outstanding: usize,
}

// The receiving half's numbers: rcv_nxt, whether a tell is wanted, and how many are ready, waiting and noted as acks.
#[repr(C)]
#[derive(Clone, Copy, Default)]
pub struct Arrival {
    pub expected: u32,
    pub tell: u8,
    pub ready: usize,
    pub waiting: usize,
    pub acks: usize,
}

// What flushes and updates move on: the probe clock, the time of the last of them, the next flush time, whether an ask is wanted,
// whether the link is dead, and whether an update has been made.
#[repr(C)]
#[derive(Clone, Copy, Default)]
pub struct Clock {
    pub probe: ProbeClock,
    pub current: u32,
    pub next_flush: u32,
    pub ask: u8,
    pub dead: u8,
    pub updated: u8,
}

// The control block. Flags are 0 or, set, anything else, so every byte pattern is a block. What stands in a list past its
// count is not state.
#[repr(C)]
#[derive(Clone, Copy)]
pub struct Link {
    pub settings: Settings,
    pub flight: Flight,
    pub arrival: Arrival,
    pub clock: Clock,
    pub queued: [u32; 128],
    pub outstanding: [u32; 32],
    pub transmissions: [u8; 32],
    pub ready: [u32; 128],
    pub waiting: [u32; 128],
    pub waiting_numbers: [u32; 128],
}
