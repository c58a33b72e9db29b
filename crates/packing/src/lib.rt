// Segments packed into datagrams, straight into lent output.
#![tactic(auto)]

ghost use Rattle.std.specs.Prelude.{◌≡◌, ◌+◌, ◌-◌, ◌*◌, ◌≤◌, ◌<◌, length};
ghost use Rattle.wire.specs.Headers.{encode};
ghost use Rattle.session.specs.Flushing.{bytes_of_segment, control, data_segment};
ghost use Rattle.packing.specs.Packers.{carried_of, none, begun, closed, with_length, Fills, MakesRoom, Finishes};
ghost use Rattle.packing.specs.Writers.{Same, HasRoom, PutsIn};

use lists::Sent;
use protocol::Protocol;
use wire::Header;

// Where the next byte goes, where the datagram that is being filled starts, and how many datagrams are closed.
#[derive(Clone, Copy)]
pub struct Packer {
    pub at: usize,
    pub start: usize,
    pub count: usize,
}

// What all segments of a flush carry: conversation, window and una.
#[derive(Clone, Copy)]
pub struct Carried {
    pub conv: u32,
    pub wnd: u16,
    pub una: u32,
}

// What writes the datagrams of a flush: their limit, what all their segments carry, the packer, and the lent output and lengths.
#[derive(Drop)]
pub struct Writer<'a> {
    pub mtu: usize,
    pub carried: Carried,
    pub packer: Packer,
    pub out: &'a mut [u8],
    pub lengths: &'a mut [u16],
}

impl<'a> Writer<'a> {
    pub fn new(
        mtu: usize,
        carried: Carried,
        out: &'a mut [u8],
        lengths: &'a mut [u16],
    ) -> Writer<'a>
        ensures settings { (result.mtu ≡ mtu) × (result.carried ≡ carried) × (result.packer ≡ none) }
        ensures same_out { (result.out.ghost_name ≡ out.entry.ghost_name) × (result.out.now ≡ out.old) }
        ensures same_lengths { (result.lengths.ghost_name ≡ lengths.entry.ghost_name) × (result.lengths.now ≡ lengths.old) }
    {
        let packer = Packer {
            at: 0,
            start: 0,
            count: 0,
        };
        Writer {
            mtu,
            carried,
            packer,
            out,
            lengths,
        }
    }

    // The datagram that is being filled is closed: its length is noted, and the next one starts behind it.
    fn close(&mut self)
        requires { Fills self.old.mtu self.old.packer × (self.old.packer.count < length self.old.lengths.now) }
        ensures same { Same self.old self.new × (self.new.out.now ≡ self.old.out.now) }
        ensures closes { (self.new.packer ≡ closed self.old.packer)
            × (self.new.lengths.now ≡ with_length self.old.packer self.old.lengths.now) }
    {
        let packer = self.packer;
        self.lengths[packer.count] = (packer.at - packer.start) as u16;
        self.packer = Packer {
            start: packer.at,
            count: packer.count + 1,
            ..packer
        };
    }

    // Room for `size` bytes: where they would take the datagram past mtu, it is closed.
    fn make_room(&mut self, size: usize)
        requires { Fills self.old.mtu self.old.packer × (size ≤ self.old.mtu)
            × (begun self.old.packer + 1 ≤ length self.old.lengths.now) }
        ensures same { Same self.old self.new × (self.new.out.now ≡ self.old.out.now) }
        ensures room { MakesRoom self.old.mtu size self.old.packer self.old.lengths.now self.new.packer self.new.lengths.now }
    {
        let fits = self.packer.at - self.packer.start + size <= self.mtu;
        if !fits {
            self.close();
        }
    }

    // A header, with room for its payload behind it.
    fn put_header(&mut self, h: Header)
        requires { HasRoom (24 + h.len) 1 self.old × (24 + h.len ≤ self.old.mtu) }
        ensures same { Same self.old self.new }
        ensures puts { PutsIn (24 + h.len) (encode h) self.old self.new }
    {
        let at = self.packer.at;
        self.make_room(Protocol::HEADER + h.len as usize);
        wire::codec::write_header(self.out, at, h);
        self.packer.at = at + Protocol::HEADER;
    }

    // An ack, an ask or a tell.
    pub fn put_control(&mut self, cmd: u8, sn: u32, ts: u32)
        requires { HasRoom 24 1 self.old × (24 ≤ self.old.mtu) }
        ensures same { Same self.old self.new }
        ensures puts { PutsIn 24 (bytes_of_segment (control (carried_of self.old.carried) cmd sn ts)) self.old self.new }
    {
        let carried = self.carried;
        self.put_header(Header {
            conv: carried.conv,
            cmd,
            frg: 0,
            wnd: carried.wnd,
            ts,
            sn,
            una: carried.una,
            len: 0,
        });
    }

    // A data segment, sent at t: its payload comes from its slot of the send pool.
    pub fn put_data(&mut self, t: u32, sent: Sent, pool: &[u8])
        requires { HasRoom (24 + sent.held.len) 1 self.old × (24 + sent.held.len ≤ self.old.mtu) ×
            (sent.held.slot * (self.old.mtu - 24) + sent.held.len ≤ length pool.now) }
        ensures same { Same self.old self.new }
        ensures puts { PutsIn (24 + sent.held.len)
            (bytes_of_segment (data_segment (carried_of self.old.carried) (self.old.mtu - 24) t pool.now sent)) self.old self.new }
    {
        let carried = self.carried;
        let held = sent.held;
        let len = held.len as usize;
        let from = (held.slot as usize) * (self.mtu - Protocol::HEADER);
        self.put_header(Header {
            conv: carried.conv,
            cmd: Protocol::PUSH,
            frg: held.fragment,
            wnd: carried.wnd,
            ts: t,
            sn: sent.record.number,
            una: carried.una,
            len: held.len as u32,
        });
        let at = self.packer.at;
        pools::copy_part(pool, from, len, self.out, at);
        self.packer.at = at + len;
    }

    // The number of datagrams, once the last one is closed; an empty one is none.
    pub fn finish(&mut self) -> usize
        requires { Fills self.old.mtu self.old.packer × (begun self.old.packer ≤ length self.old.lengths.now) }
        ensures same { Same self.old self.new × (self.new.out.now ≡ self.old.out.now) }
        ensures finishes { Finishes self.old.packer self.old.lengths.now result self.new.lengths.now }
    {
        if self.packer.at != self.packer.start {
            self.close();
        }
        self.packer.count
    }
}
