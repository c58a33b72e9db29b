// Outstanding segments: each is handled by its rule, and those that are sent are put as data.
ghost use Rattle.std.specs.Prelude.{[], ◌∷◌, ◌*◌, ◌≤◌, length};
ghost use Rattle.protocol.specs.Ranges.{mss};
ghost use Rattle.packing.specs.Writers.{Same, HasRoom, AddsTo};
ghost use Rattle.words.specs.Words.{unpack};
ghost use Rattle.numbering.specs.Sents.{sent_in};
ghost use Rattle.transmit.specs.Writing.{data_of, InSlot, sent_as, WritesFor, Sendable, Walks};

use crate::{Flush, Told};
use lists::{Held, Sent};
use packing::Writer;
use protocol::Protocol;
use retransmission::{Cause, Transmission, outstanding};
use timing::Record;

// The data of the segment of this word, sent as its rule says.
fn put_sent(writer: &mut Writer, flush: Flush, word: u32, x: Transmission, pool: &[u8])
    requires { HasRoom flush.settings.mtu 1 writer.old × (24 ≤ flush.settings.mtu) × WritesFor flush writer.old
        × InSlot (mss flush.settings) (unpack word) × (128 * mss flush.settings ≤ length pool.now) }
    ensures same { Same writer.old writer.new }
    ensures adds { AddsTo (data_of flush pool.now (sent_as word x) ∷ []) flush.settings.mtu 1 writer.old writer.new }
{
    let sent = Sent {
        held: Held::from(word),
        transmissions: x.transmissions,
        record: x.updated,
    };
    writer.put_data(flush.t, sent, pool);
}

// All n of them, in order of sn. One that is not sent stays as it is.
pub(crate) fn put_outstanding(
    writer: &mut Writer,
    flush: Flush,
    words: &[u32; 32],
    transmissions: &mut [u8; 32],
    records: &mut [Record; 32],
    n: usize,
    pool: &[u8],
) -> Told
    requires { HasRoom (32 * flush.settings.mtu) 32 writer.old × WritesFor flush writer.old
        × Sendable flush words.now transmissions.old records.old n pool.now }
    ensures same { Same writer.old writer.new }
    ensures walks { Walks flush (sent_in words.now transmissions.old records.old n) words.now n pool.now
        writer.old result transmissions.new records.new writer.new }
{
    let mut told = Told {
        dead: false,
        late: false,
        fast: false,
        sent: false,
    };
    for i in 0..n {
        let x = outstanding::transmission(
            flush.settings,
            flush.timeout,
            flush.t,
            transmissions[i],
            records[i],
        );
        let Some(cause) = x.cause else {
            continue;
        };
        transmissions[i] = x.transmissions;
        records[i] = x.updated;
        put_sent(writer, flush, words[i], x, pool);
        told = Told {
            dead: told.dead | (x.transmissions == Protocol::DEAD_AFTER),
            late: told.late | (cause == Cause::Late),
            fast: told.fast | (cause == Cause::Fast),
            sent: true,
        };
    }
    told
}
