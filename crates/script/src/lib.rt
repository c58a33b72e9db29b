// A line of a replay script read as a command. Words are parted by one space; numbers are decimal, bytes are hex.
#![tactic(auto)]

mod names;
mod numbers;
pub mod words;

ghost use Rattle.std.specs.Prelude.{◌≡◌, length};
ghost use Rattle.script.specs.Commands.{is_field, field_most, has_field, held_most, of_none, of_one, of_two, of_four, of_five, of_seven};
ghost use Rattle.script.specs.Commands.{of_numbers, with_numbers, numbers_of, arguments, Parsed};
ghost use Rattle.script.specs.Names.{number};
ghost use Rattle.script.specs.Reading.{ReadBehind};

use names::Name;

// The most bytes of a line, its newline not counted, and of a script.
pub const LINE_MOST: usize = 65000;

pub const SCRIPT_MOST: usize = 1048576;

// The most that `read` takes as the length of its buffer.
pub const ROOM_MOST: usize = 60000;

// A command. The bytes of `send` and `input` stand at the start of a lent buffer, and their count is here.
#[derive(Clone, Copy)]
pub enum Command {
    Open {
        conv: u32,
        mtu: u32,
        mode: u32,
        interval: u32,
        threshold: u32,
        stream: u32,
        congestion: u32,
    },
    Send(usize),
    Input(usize),
    Flush(u32),
    Update(u32),
    Check(u32),
    Read(u32),
    Size,
    Show,
    State,
    Held,
    Jump {
        snd: u32,
        rcv: u32,
    },
    Lend {
        part: u32,
        count: u32,
    },
    Poke {
        field: u32,
        value: u32,
    },
    Hold {
        list: u32,
        index: u32,
        field: u32,
        value: u32,
    },
    Rec {
        slot: u32,
        number: u32,
        due: u32,
        timeout: u32,
        skips: u32,
    },
}

// Commands without a number.
fn of_none(name: Name) -> Option<Command>
    ensures { result ≡ of_none (number name) }
{
    match name {
        Name::Size => Some(Command::Size),
        Name::Show => Some(Command::Show),
        Name::State => Some(Command::State),
        Name::Held => Some(Command::Held),
        _ => None,
    }
}

// Commands with one number.
fn of_one(name: Name, a: u32) -> Option<Command>
    ensures { result ≡ of_one (number name) a }
{
    match name {
        Name::Flush => Some(Command::Flush(a)),
        Name::Update => Some(Command::Update(a)),
        Name::Check => Some(Command::Check(a)),
        Name::Read => (a as usize <= ROOM_MOST).then_some(Command::Read(a)),
        _ => None,
    }
}

// The fields of the control block that can be poked.
fn is_field(field: u32) -> bool
    ensures { result ≡ is_field field }
{
    field <= 25
}

// The largest value of a field of the control block; nothing above its width is a value.
#[tactic(auto, using(std::proofs::lemmas::Bool::Decides::nat_tests), unfolding(crate::specs::Commands::field_most))]
fn field_most(field: u32) -> u32
    ensures { result ≡ field_most field }
{
    match field {
        1 | 3 | 9 | 18 => 65535,
        2 | 4 | 19 | 20 => 255,
        _ => u32::MAX,
    }
}

// Commands with two numbers.
fn of_two(name: Name, a: u32, b: u32) -> Option<Command>
    ensures { result ≡ of_two (number name) a b }
{
    match name {
        Name::Jump => Some(Command::Jump { snd: a, rcv: b }),
        Name::Lend => (a <= 5).then_some(Command::Lend { part: a, count: b }),
        Name::Poke => (is_field(a) && b <= field_most(a)).then_some(Command::Poke {
            field: a,
            value: b,
        }),
        _ => None,
    }
}

// The largest value of a field of a held segment: slot, length, fragment, and transmissions or number.
#[tactic(auto, using(std::proofs::lemmas::Bool::Decides::nat_tests), unfolding(crate::specs::Commands::held_most))]
fn held_most(list: u32, field: u32) -> u32
    ensures { result ≡ held_most list field }
{
    match field {
        1 => 65535,
        0 | 2 => 255,
        _ if list == 1 => 255,
        _ => u32::MAX,
    }
}

// Whether segments of the list have the field.
fn has_field(list: u32, field: u32) -> bool
    ensures { result ≡ has_field list field }
{
    list <= 3 && (field < 3 || field == 3 && (list == 1 || list == 3))
}

// Commands with four numbers.
fn of_four(name: Name, list: u32, index: u32, field: u32, value: u32) -> Option<Command>
    ensures { result ≡ of_four (number name) list index field value }
{
    match name {
        Name::Hold => (has_field(list, field) && value <= held_most(list, field)).then_some(
            Command::Hold {
                list,
                index,
                field,
                value,
            },
        ),
        _ => None,
    }
}

// An opening, with seven numbers; the last ones are 0 where a line leaves them out.
fn opening(
    name: Name,
    conv: u32,
    mtu: u32,
    mode: u32,
    interval: u32,
    threshold: u32,
    stream: u32,
    congestion: u32,
) -> Option<Command>
    ensures { result ≡ of_seven (number name) conv mtu mode interval threshold stream congestion }
{
    match name {
        Name::Open => Some(Command::Open {
            conv,
            mtu,
            mode,
            interval,
            threshold,
            stream,
            congestion,
        }),
        _ => None,
    }
}

// Commands with five numbers.
fn of_five(name: Name, a: u32, b: u32, c: u32, d: u32, e: u32) -> Option<Command>
    ensures { result ≡ of_five (number name) a b c d e }
{
    match name {
        Name::Rec => (a < 128 && e <= 65535).then_some(Command::Rec {
            slot: a,
            number: b,
            due: c,
            timeout: d,
            skips: e,
        }),
        _ => opening(name, a, b, c, d, e, 0, 0),
    }
}

// A command with numbers, by how many there are.
fn of_numbers(name: Name, numbers: &[u32]) -> Option<Command>
    ensures { result ≡ of_numbers (number name) numbers.now }
{
    match numbers {
        [] => of_none(name),
        [a] => of_one(name, *a),
        [a, b] => of_two(name, *a, *b),
        [a, b, c, d] => of_four(name, *a, *b, *c, *d),
        [a, b, c, d, e] => of_five(name, *a, *b, *c, *d, *e),
        [a, b, c, d, e, f] => opening(name, *a, *b, *c, *d, *e, *f, 0),
        [a, b, c, d, e, f, g] => opening(name, *a, *b, *c, *d, *e, *f, *g),
        _ => None,
    }
}

// A command with the numbers behind its name. None has more than seven.
fn with_numbers(name: Name, behind: &[u8]) -> Option<Command>
    ensures { result ≡ with_numbers (number name) (numbers_of (arguments behind.now)) }
{
    let mut room = [0; 7];
    let count = numbers::behind(behind, &mut room)?;
    of_numbers(name, &room[..count])
}

// The bytes of a command are the whole of the line behind one space; they are stored at the start of `bytes`.
fn bytes_behind(behind: &[u8], bytes: &mut [u8]) -> Option<usize>
    ensures { ReadBehind behind.now bytes.old result bytes.new }
{
    let (_, word) = behind.split_first()?;
    notation::read::bytes(word, bytes)
}

// The command of a line without its newline; none where it is malformed.
pub fn parse(line: &[u8], bytes: &mut [u8]) -> Option<Command>
    ensures { Parsed line.now bytes.old result bytes.new }
{
    if LINE_MOST < line.len() {
        return None;
    }
    let (word, behind) = words::split_before(line, words::SPACE);
    let name = names::of_word(word)?;
    match name {
        Name::Send => bytes_behind(behind, bytes).map(Command::Send),
        Name::Input => bytes_behind(behind, bytes).map(Command::Input),
        _ => with_numbers(name, behind),
    }
}
