// Sending a message, over a block where it stands that has passed the checks of 7 and 13; its send slots are marked.
#![tactic(auto)]

ghost use Rattle.std.specs.Prelude.{List, ℕ};
ghost use Rattle.timing.specs.declared.Record.{Record};
ghost use Rattle.session.specs.Sending.{sending};
ghost use Rattle.control.specs.Views.{state_of};
ghost use Rattle.promises.specs.Cores.{SendCore};
ghost use Rattle.send_core.specs.Sending.{Sendable, SendKeeps};

use answers::Answer;
use control::Link;
use enqueue::Outgoing;

// Sending: 10, then 11.
pub fn send_checked(
    link: &mut Link,
    marks: &[u8; 128],
    pool: &mut [u8],
    message: &[u8],
) -> Answer<()>
    requires { (records : List Record) × Sendable link.old records marks.now pool.old }
    ensures sends { (records : List Record) (acks : List ℕ) → Sendable link.old records marks.now pool.old
        → SendCore (sending (state_of link.old records acks) pool.old message.now) link.old records acks pool.old
        result link.new pool.new }
    ensures keeps { SendKeeps link.old link.new }
{
    let mut outgoing = Outgoing {
        stream: link.settings.stream == 1,
        mss: link.settings.mss(),
        queued: &mut link.queued,
        count: link.flight.queued,
        marks,
        pool,
    };
    let answer = outgoing.enqueue(link.flight.outstanding, message);
    let count = outgoing.count;
    link.flight.queued = count;
    answer
}
