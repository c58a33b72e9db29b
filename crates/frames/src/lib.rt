// Groups of frames: k data frames, each a datagram behind a header of 8 bytes, and two parity frames.
#![tactic(auto)]

ghost use Rattle.std.specs.Prelude.{◌≡◌, ◌≤◌, true, false, MatchResult};
ghost use Rattle.frames.specs.Outcomes.{number_of, settings_ok};

pub mod lent;

use protocol::Protocol;

// The numbers of the frames.
#[derive(Clone, Copy)]
pub struct Frames {}

impl Frames {
    pub const DATA: u16 = 241;

    pub const PARITY: u16 = 242;

    // Bytes of a frame ahead of its datagram, and ahead of its shard.
    pub const HEADER: usize = 8;

    pub const SHARD: usize = 6;

    // The most datagrams of a group, and the most frames.
    pub const DATA_MOST: usize = 10;

    pub const FRAMES_MOST: usize = 12;

    // No group starts here or later.
    pub const GROUPS_END: u64 = 4294967284;
}

// Why a call is refused.
#[derive(Clone, Copy, Debug, PartialEq, Eq)]
pub enum Refusal {
    ShortPart,
    SettingOutOfRange,
    NotAGroup,
    TooFewFrames,
    LateGroup,
}

// How many frames or datagrams were written, or why none.
pub type Answer = Result<usize, Refusal>;

impl Refusal {
    // The refusal's number, which C is told.
    pub fn number(self) -> u8
        ensures { result ≡ number_of self }
    {
        match self {
            Refusal::ShortPart => 7,
            Refusal::SettingOutOfRange => 12,
            Refusal::NotAGroup => 21,
            Refusal::TooFewFrames => 22,
            Refusal::LateGroup => 23,
        }
    }
}

// The settings of a group: k datagrams, each of up to mtu bytes.
#[derive(Clone, Copy)]
pub struct Shape {
    pub k: usize,
    pub mtu: usize,
    pub ghost few: { k ≤ 10 },
    pub ghost small: { mtu ≤ 1400 },
}

impl Shape {
    // 1 to 10 datagrams in a group, and a link's mtu; refuses other settings.
    pub fn new(k: u32, mtu: u32) -> Result<Shape, Refusal>
        ensures { MatchResult result (λ s. (settings_ok k mtu ≡ true) × (s.k ≡ k) × (s.mtu ≡ mtu))
            (λ r. (settings_ok k mtu ≡ false) × (r ≡ Refusal.SettingOutOfRange)) }
    {
        let (k, mtu) = (k as usize, mtu as usize);
        let mtus = usize::from(Protocol::MTU_LEAST)..=usize::from(Protocol::MTU_MOST);
        if (1..=Frames::DATA_MOST).contains(&k) && mtus.contains(&mtu) {
            Ok(Shape { k, mtu })
        } else {
            Err(Refusal::SettingOutOfRange)
        }
    }
}
