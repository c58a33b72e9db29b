// All acks in order, then a window ask and a window tell if wanted.
ghost use Rattle.std.specs.Prelude.{◌++◌, map, ◌+◌, ◌*◌, ◌≤◌, length};
ghost use Rattle.protocol.specs.Protocol.{window_ask, window_tell};
ghost use Rattle.session.specs.Flushing.{control, ack_segment, wished};
ghost use Rattle.control.specs.Views.{pairs};
ghost use Rattle.packing.specs.Packers.{carried_of};
ghost use Rattle.packing.specs.Writers.{Same, HasRoom, AddsTo};

use packing::Writer;
use protocol::Protocol;

// An ack for each of the first n pairs of the ack list, sn then ts.
fn put_acks(writer: &mut Writer, acks: &[u32], n: usize)
    requires { HasRoom (24 * n) n writer.old × (24 ≤ writer.old.mtu) × (2 * n ≤ length acks.now) }
    ensures same { Same writer.old writer.new }
    ensures adds { AddsTo (map (ack_segment (carried_of writer.old.carried)) (pairs n acks.now)) (24 * n) n writer.old writer.new }
{
    for i in 0..n {
        writer.put_control(Protocol::ACK, acks[2 * i], acks[2 * i + 1]);
    }
}

// An ask or a tell, if it is wanted.
fn put_wished(writer: &mut Writer, cmd: u8, wish: bool)
    requires { HasRoom 24 1 writer.old × (24 ≤ writer.old.mtu) }
    ensures same { Same writer.old writer.new }
    ensures adds { AddsTo (wished wish (control (carried_of writer.old.carried) cmd 0 0)) 24 1 writer.old writer.new }
{
    if wish {
        writer.put_control(cmd, 0, 0);
    }
}

// All of them.
pub(crate) fn put_controls(writer: &mut Writer, acks: &[u32], n: usize, ask: bool, tell: bool)
    requires { HasRoom (24 * n + 48) (n + 2) writer.old × (24 ≤ writer.old.mtu) × (2 * n ≤ length acks.now) }
    ensures same { Same writer.old writer.new }
    ensures adds { AddsTo (map (ack_segment (carried_of writer.old.carried)) (pairs n acks.now)
        ++ wished ask (control (carried_of writer.old.carried) window_ask 0 0)
        ++ wished tell (control (carried_of writer.old.carried) window_tell 0 0)) (24 * n + 48) (n + 2) writer.old writer.new }
{
    put_acks(writer, acks, n);
    put_wished(writer, Protocol::WINDOW_ASK, ask);
    put_wished(writer, Protocol::WINDOW_TELL, tell);
}
