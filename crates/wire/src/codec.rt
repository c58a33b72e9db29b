// Headers, written straight into lent output and read from a datagram.
ghost use Rattle.std.specs.Prelude.{◌≡◌, ◌+◌, ◌≤◌, length};
ghost use Rattle.std.proofs.lemmas.List.Edits.{sets};
ghost use Rattle.wire.specs.Headers.{front, back, encode, decode, Wrote, header_at};

use crate::Header;
use crate::number::Number;
use protocol::Protocol;

// The header's first 8 bytes.
#[tactic(auto, using(crate::specs::HeaderLaws::front_stored))]
fn put_front(out: &mut [u8], at: usize, h: Header)
    requires { at + 8 ≤ length out.old }
    ensures { out.new ≡ sets out.old at (front h) }
{
    h.conv.put(out, at);
    h.cmd.put(out, at + 4);
    h.frg.put(out, at + 5);
    h.wnd.put(out, at + 6);
}

// The header's last 16 bytes.
#[tactic(auto, using(crate::specs::HeaderLaws::back_stored))]
fn put_back(out: &mut [u8], at: usize, h: Header)
    requires { at + 16 ≤ length out.old }
    ensures { out.new ≡ sets out.old at (back h) }
{
    h.ts.put(out, at);
    h.sn.put(out, at + 4);
    h.una.put(out, at + 8);
    h.len.put(out, at + 12);
}

// The header at `at`, where there is room for it.
#[tactic(auto, using(crate::specs::HeaderLaws::encode_stored))]
fn put_header(out: &mut [u8], at: usize, h: Header)
    requires { at + 24 ≤ length out.old }
    ensures { out.new ≡ sets out.old at (encode h) }
{
    put_front(out, at, h);
    put_back(out, at + 8, h);
}

// Writes the header at `at` and answers true; where there is no room for it, writes nothing and answers false.
pub fn write_header(out: &mut [u8], at: usize, h: Header) -> bool
    ensures { Wrote out.old at h result out.new }
{
    if out.len() < Protocol::HEADER || out.len() - Protocol::HEADER < at {
        return false;
    }
    put_header(out, at, h);
    true
}

// The header that the 24 bytes from `at` on are.
#[tactic(auto, unfolding(crate::specs::Headers::decode))]
fn read_header(s: &[u8], at: usize) -> Header
    requires { at + 24 ≤ length s.now }
    ensures { result ≡ decode s.now at }
{
    Header {
        conv: u32::read(s, at),
        cmd: u8::read(s, at + 4),
        frg: u8::read(s, at + 5),
        wnd: u16::read(s, at + 6),
        ts: u32::read(s, at + 8),
        sn: u32::read(s, at + 12),
        una: u32::read(s, at + 16),
        len: u32::read(s, at + 20),
    }
}

// The header at `at`, where 24 bytes stand there.
#[tactic(auto, unfolding(crate::specs::Headers::header_at))]
pub fn find_header(s: &[u8], at: usize) -> Option<Header>
    ensures { result ≡ header_at s.now at }
{
    let last = s.len().checked_sub(Protocol::HEADER)?;
    if last < at {
        return None;
    }
    Some(read_header(s, at))
}
