// Segments' headers as bytes.
#![tactic(auto)]

pub mod codec;
pub mod number;

// A segment's header.
#[derive(Clone, Copy)]
pub struct Header {
    pub conv: u32,
    pub cmd: u8,
    pub frg: u8,
    pub wnd: u16,
    pub ts: u32,
    pub sn: u32,
    pub una: u32,
    pub len: u32,
}
