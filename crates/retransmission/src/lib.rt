// When an outstanding segment is transmitted, and what a flush or a skip leaves of its record.
#![tactic(auto)]

pub mod outstanding;

use timing::Record;

// Why a segment is sent: it never was before, it was due, or it was skipped.
#[derive(Clone, Copy, PartialEq, Eq)]
pub enum Cause {
    First,
    Late,
    Fast,
}

// What a flush does with an outstanding segment: why it is sent, if it is, and its transmissions and record afterwards.
#[derive(Clone, Copy)]
pub struct Transmission {
    pub cause: Option<Cause>,
    pub transmissions: u8,
    pub updated: Record,
}
