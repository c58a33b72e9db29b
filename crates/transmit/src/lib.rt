// What a flush sends, in place: outstanding segments are transmitted by their rules, and all that is to be sent is packed into
// datagrams. Transmissions and records are lent arrays, and the lent parts slices.
#![tactic(auto)]

mod controls;
mod transmitting;

ghost use Rattle.control.specs.Views.{pairs};
ghost use Rattle.numbering.specs.Sents.{sent_in};
ghost use Rattle.transmit.specs.Writing.{Writable, Writes};

use packing::{Carried, Writer};
use protocol::Settings;
use timing::Record;

// What a flush goes by: the settings, what all its segments carry, the link's timeout, and the time.
#[derive(Clone, Copy)]
pub struct Flush {
    pub settings: Settings,
    pub carried: Carried,
    pub timeout: u32,
    pub t: u32,
}

// What the flush did with the outstanding segments: whether one was sent, and whether one sent was transmitted 20 times, was due
// (late), or was skipped (fast).
#[derive(Clone, Copy)]
pub struct Told {
    pub dead: bool,
    pub late: bool,
    pub fast: bool,
    pub sent: bool,
}

// The same, with the number of datagrams that it has written.
#[derive(Clone, Copy)]
pub struct Written {
    pub told: Told,
    pub count: usize,
}

// Writes all that the flush sends: acks, ask and tell, then the data of n outstanding segments, packed into datagrams, and each
// datagram's length.
pub fn write(
    flush: Flush,
    acks: &[u32],
    noted: usize,
    ask: bool,
    tell: bool,
    words: &[u32; 32],
    transmissions: &mut [u8; 32],
    records: &mut [Record; 32],
    n: usize,
    pool: &[u8],
    out: &mut [u8],
    lengths: &mut [u16],
) -> Written
    requires { Writable flush noted acks.now words.now transmissions.old records.old n pool.now out.old lengths.old }
    ensures { Writes flush (pairs noted acks.now) ask tell
        (sent_in words.now transmissions.old records.old n) words.now n
        pool.now out.old lengths.old
        result transmissions.new records.new out.new lengths.new }
{
    let mut writer = Writer::new(flush.settings.mtu as usize, flush.carried, out, lengths);
    controls::put_controls(&mut writer, acks, noted, ask, tell);
    let told = transmitting::put_outstanding(
        &mut writer,
        flush,
        words,
        transmissions,
        records,
        n,
        pool,
    );
    Written {
        told,
        count: writer.finish(),
    }
}
