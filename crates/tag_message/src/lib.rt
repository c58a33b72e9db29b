// A tag message: a name length 1 to 32, the name in bytes 33 to 126, a value length 0 to 64, the value, and then the end. A name and a
// value come as two slices, as the C interface lends them.
#![tactic(auto)]

ghost use Rattle.std.specs.Prelude.{◌≡◌, ◌+◌, ◌≤◌, ◌<◌, length, slice_index};
ghost use Rattle.std.proofs.lemmas.List.Edits.{sets};
ghost use Rattle.std.specs.List.{list_all};
ghost use Rattle.tag_message.specs.Tags.{number_of, is_printable, is_name, is_tag};
ghost use Rattle.tag_message.specs.Messages.{counted, read_from, Writes};

// The longest name and the longest value.
pub const NAME_MOST: usize = 32;

pub const VALUE_MOST: usize = 64;

// What a message writer is lent at least: the longest message.
const ROOM: usize = 98;

// Why a call on a tag message or on a table of tags is refused.
#[derive(Clone, Copy, Debug, PartialEq, Eq)]
pub enum TagRefusal {
    OtherSize = 7,
    NotATag = 17,
    Full = 18,
    Absent = 19,
    NotATable = 24,
}

// The lengths of the name and of the value in a message.
#[derive(Clone, Copy, Debug, PartialEq, Eq)]
pub struct Lengths {
    pub name: usize,
    pub value: usize,
}

impl TagRefusal {
    // The refusal's number.
    pub fn number(self) -> u8
        ensures { result ≡ number_of self }
    {
        self as u8
    }
}

// Whether every byte is one of 33 to 126. It doesn't stop at another one, and so many bytes are tested at once.
pub fn all_printable(s: &[u8]) -> bool
    ensures { result ≡ list_all is_printable s.now }
{
    let mut all = true;
    for b in s {
        all &= b.is_ascii_graphic();
    }
    all
}

// Whether these bytes are a name.
#[tactic(auto, unfolding(crate::specs::Tags::is_name))]
pub fn is_name(name: &[u8]) -> bool
    ensures { result ≡ is_name name.now }
{
    1 <= name.len() && name.len() <= NAME_MOST && all_printable(name)
}

// Whether these are a name and a value.
#[tactic(auto, unfolding(crate::specs::Tags::is_tag))]
pub fn is_tag(name: &[u8], value: &[u8]) -> bool
    ensures { result ≡ is_tag name.now value.now }
{
    is_name(name) && value.len() <= VALUE_MOST
}

// A length in one byte, and then the bytes, stored from `at` on. No other byte changes.
pub fn put_counted(out: &mut [u8], at: usize, bytes: &[u8])
    requires { (length bytes.now ≤ 64) × (at + (1 + length bytes.now) ≤ length out.old) }
    ensures { out.new ≡ sets out.old at (counted bytes.now) }
{
    out[at] = bytes.len() as u8;
    pools::copy_part(bytes, 0, bytes.len(), out, at + 1);
}

// Writes the message of a name and a value at the start of a part, and answers its length: 7 where the part is under 98 bytes, then 17.
// No other byte changes.
#[tactic(auto, using(crate::specs::MessageLaws::no_room, crate::specs::MessageLaws::no_tag, crate::specs::MessageLaws::tag_lengths))]
pub fn write(name: &[u8], value: &[u8], out: &mut [u8]) -> Result<usize, TagRefusal>
    ensures { Writes name.now value.now out.old result out.new }
{
    if out.len() < ROOM {
        return Err(TagRefusal::OtherSize);
    }
    if !is_tag(name, value) {
        return Err(TagRefusal::NotATag);
    }
    let middle = 1 + name.len();
    put_counted(out, 0, name);
    put_counted(out, middle, value);
    Ok(middle + 1 + value.len())
}

// The byte at i, or 0 beyond the end.
fn byte_at(s: &[u8], i: usize) -> usize
    ensures value { result ≡ slice_index s.now i }
    ensures byte { result < 256 }
{
    usize::from(s.get(i).copied().unwrap_or(0))
}

// Reads a message: 17 where it is not of the form.
pub fn read(message: &[u8]) -> Result<Lengths, TagRefusal>
    ensures { result ≡ read_from message.now }
{
    let name = byte_at(message, 0);
    let middle = 1 + name;
    let value = byte_at(message, middle);
    if message.len() == middle + 1 + value && value <= VALUE_MOST && is_name(&message[1..middle]) {
        Ok(Lengths { name, value })
    } else {
        Err(TagRefusal::NotATag)
    }
}
