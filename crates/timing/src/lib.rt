// The link's times: round trips and timeouts, the probe clock, and the record of an outstanding segment.
#![tactic(auto)]

pub mod probe;
pub mod round_trip;

// What is known of the round trip: the smoothed time, its variation, and the link's timeout.
#[repr(C)]
#[derive(Clone, Copy, Default)]
pub struct RoundTrip {
    pub smoothed: u32,
    pub variation: u32,
    pub timeout: u32,
}

// The probe clock: how long it waits between two asks (0: it is stopped), and when the next ask is due.
#[repr(C)]
#[derive(Clone, Copy, Default)]
pub struct ProbeClock {
    pub wait: u32,
    pub due: u32,
}

// What a flush does to the probe clock: the next clock, and whether an ask is wanted.
#[derive(Clone, Copy)]
pub struct Probed {
    pub clock: ProbeClock,
    pub ask: bool,
}

// The record of a send slot: the segment's number, when it is due, its timeout, and its skips.
#[repr(C)]
#[derive(Clone, Copy, Default)]
pub struct Record {
    pub number: u32,
    pub due: u32,
    pub timeout: u32,
    pub skips: u32,
}
