// The protocol's numbers, the settings of a link, the refusals, and 32-bit numbers that wrap.
#![tactic(auto)]

pub mod serial;

ghost use Rattle.std.specs.Prelude.{◌≡◌, ◌-◌};
ghost use Rattle.protocol.specs.Protocol.{header_size};
ghost use Rattle.protocol.specs.Ranges.{in_range};
ghost use Rattle.protocol.specs.Refusals.{number_of};

// The numbers of the protocol, all of them here.
#[derive(Clone, Copy)]
pub struct Protocol {}

impl Protocol {
    // Commands.
    pub const PUSH: u8 = 81;

    pub const ACK: u8 = 82;

    pub const WINDOW_ASK: u8 = 83;

    pub const WINDOW_TELL: u8 = 84;

    // Bytes of a header.
    pub const HEADER: usize = 24;

    // The largest fragment number, and the most fragments of a message.
    pub const FRAGMENT_MOST: u8 = 126;

    pub const FRAGMENTS_MOST: usize = 127;

    // Windows, in segments.
    pub const RECEIVE_WINDOW: u32 = 128;

    pub const SEND_WINDOW: u32 = 32;

    // Slots of the send pool and of the receive pool, and noted acknowledgements.
    pub const SEND_SLOTS: usize = 128;

    pub const RECEIVE_SLOTS: usize = 256;

    pub const ACKS_MOST: usize = 256;

    // What a flush is lent at least: bytes of output, and lengths of datagrams.
    pub const OUTPUT_LEAST: usize = 50992;

    pub const LENGTHS_LEAST: usize = 290;

    // Times, in milliseconds.
    pub const PROBE_WAIT_LEAST: u32 = 7000;

    pub const PROBE_WAIT_MOST: u32 = 120000;

    pub const TIMEOUT_FIRST: u32 = 200;

    pub const TIMEOUT_MOST: u32 = 60000;

    pub const TIMEOUT_LEAST: u32 = 100;

    pub const TIMEOUT_LEAST_FAST: u32 = 30;

    // A next flush time so far from now is set to now.
    pub const CLOCK_JUMP: u32 = 10000;

    // Transmissions: the link is dead after this many, and a fast retransmission comes after at most so many.
    pub const DEAD_AFTER: u8 = 20;

    pub const FAST_MOST: u8 = 5;

    // The most that is counted of skips.
    pub const SKIPS_MOST: u32 = 255;

    // The ranges of the settings.
    pub const MTU_LEAST: u16 = 50;

    pub const MTU_MOST: u16 = 1400;

    pub const MODE_MOST: u8 = 2;

    pub const INTERVAL_LEAST: u16 = 10;

    pub const INTERVAL_MOST: u16 = 5000;

    pub const THRESHOLD_MOST: u8 = 100;

    pub const STREAM_MOST: u8 = 1;

    pub const CONGESTION_MOST: u8 = 1;

    // The ranges of the congestion window, in segments, and of its threshold.
    pub const CONGESTION_WINDOW_MOST: u32 = 65535;

    pub const CONGESTION_THRESHOLD_LEAST: u32 = 2;

    pub const CONGESTION_THRESHOLD_MOST: u32 = 16;

    // The settings that a link is opened with; whether they are in range is asked by `in_range`. One argument for each field, as
    // docs/DECISIONS.md promises.
    pub fn settings(
        conv: u32,
        mtu: u16,
        mode: u8,
        interval: u16,
        threshold: u8,
        stream: u8,
        congestion: u8,
    ) -> Settings
        ensures { result ≡ record {
          conv = conv;
          mtu = mtu;
          interval = interval;
          mode = mode;
          threshold = threshold;
          stream = stream;
          congestion = congestion;
        } }
    {
        Settings {
            conv,
            mtu,
            interval,
            mode,
            threshold,
            stream,
            congestion,
        }
    }
}

// The settings of a link: conversation, largest datagram, interval, mode, threshold of a fast retransmission, stream mode (1, else 0), and
// whether flushes go by the congestion window (1, else 0). The last are numbers and no enums: the block that C lends may show any.
#[repr(C)]
#[derive(Clone, Copy)]
pub struct Settings {
    pub conv: u32,
    pub mtu: u16,
    pub interval: u16,
    pub mode: u8,
    pub threshold: u8,
    pub stream: u8,
    pub congestion: u8,
}

impl Settings {
    // Whether every setting is in its range.
    pub fn in_range(self) -> bool
        ensures { result ≡ in_range self }
    {
        (Protocol::MTU_LEAST..=Protocol::MTU_MOST).contains(&self.mtu)
            & (self.mode <= Protocol::MODE_MOST)
            & (Protocol::INTERVAL_LEAST..=Protocol::INTERVAL_MOST).contains(&self.interval)
            & (self.threshold <= Protocol::THRESHOLD_MOST)
            & (self.stream <= Protocol::STREAM_MOST)
            & (self.congestion <= Protocol::CONGESTION_MOST)
    }

    // The largest payload: 0 for an mtu below a header's size.
    pub fn mss(self) -> usize
        ensures { result ≡ self.mtu - header_size }
    {
        usize::from(self.mtu).saturating_sub(Protocol::HEADER)
    }
}

// Why a call is refused; 8 is no refusal's number.
#[derive(Clone, Copy, Debug, PartialEq, Eq)]
pub enum Refusal {
    ShortDatagram = 1,
    OtherConversation = 2,
    LengthPastEnd = 3,
    UnknownCommand = 4,
    LongPayload = 5,
    HighFragment = 6,
    ShortPart = 7,
    NoMessage = 9,
    LongMessage = 10,
    NoFreeSlots = 11,
    SettingOutOfRange = 12,
    InvalidBlock = 13,
    TrailingBytes = 14,
}

impl Refusal {
    // The refusal's number.
    pub fn number(self) -> u8
        ensures { result ≡ number_of self }
    {
        self as u8
    }
}
