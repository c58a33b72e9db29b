// Lists the segments of the datagram on standard input.
#![tactic(auto)]

use notation::input::read_full;
use std::io;
use std::io::Print;

fn main(rt: HostRuntime) -> io::Result<()> {
    let mut datagram = [0u8; listing::DATAGRAM_MOST + 1];
    let n = read_full(&mut rt.stdin(), &mut datagram)?;
    let mut out = [0u8; listing::ROOM_LEAST];
    let m = listing::listing(&datagram[..n], &mut out);
    rt.write_all(&out[..m])
}
