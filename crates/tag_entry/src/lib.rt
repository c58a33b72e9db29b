// An entry of a table of tags, in 98 bytes: a name length, 32 name bytes, a value length and 64 value bytes. A name length 0
// is that of a free entry. Unused bytes are zero.
#![tactic(auto)]

ghost use Rattle.std.specs.Prelude.{◌≡◌, true, ◌+◌, ◌≤◌, length, replicate};
ghost use Rattle.std.specs.List.{list_all};
ghost use Rattle.std.proofs.lemmas.List.Edits.{sets};
ghost use Rattle.tag_message.specs.Tags.{is_tag};
ghost use Rattle.tag_entry.specs.Entries.{entry_size, is_zero, name_of, is_used, is_entry, is_named, padded, entry_of};
ghost use Rattle.tag_entry.specs.Fingerprints.{fingerprint};

use tag_message::{NAME_MOST, VALUE_MOST, is_name};

// The bytes of an entry.
pub const ENTRY: usize = 98;

pub type Entry = [u8; ENTRY];

// Where the value's length stands, and the value.
pub const VALUE_LENGTH: usize = 33;

pub const VALUE: usize = 34;

// Whether every byte is zero. It doesn't stop at another one, and so many bytes are tested at once.
fn all_zero(s: &[u8]) -> bool
    ensures { result ≡ list_all is_zero s.now }
{
    let mut all = true;
    for b in s {
        all &= *b == 0;
    }
    all
}

// The name in an entry: as many bytes as its length says, or as there are.
pub fn name_of(e: &Entry) -> &[u8]
    ensures { result.now ≡ name_of e.now }
{
    let end = 1 + usize::from(e[0]);
    &e[1..end.min(ENTRY)]
}

// Whether an entry that is not free is in its rules.
fn is_used(e: &Entry) -> bool
    ensures { result ≡ is_used e.now }
{
    let name = usize::from(e[0]);
    let value = usize::from(e[VALUE_LENGTH]);
    if NAME_MOST < name || VALUE_MOST < value {
        return false;
    }
    is_name(&e[1..1 + name]) & all_zero(&e[1 + name..VALUE_LENGTH]) & all_zero(&e[VALUE + value..])
}

// Whether an entry is in its rules.
#[tactic(auto, unfolding(crate::specs::Entries::is_entry))]
pub fn is_entry(e: &Entry) -> bool
    ensures { result ≡ is_entry e.now }
{
    if e[0] == 0 { all_zero(e) } else { is_used(e) }
}

// Whether an entry has this name.
#[tactic(auto, unfolding(crate::specs::Entries::is_named))]
pub fn is_named(e: &Entry, name: &[u8]) -> bool
    ensures { result ≡ is_named name.now e.now }
{
    name == name_of(e)
}

// A number below 256 for a name, by which most names differ.
pub fn fingerprint(name: &[u8]) -> u8
    ensures { result ≡ fingerprint name.now }
{
    name.iter().fold(
        0,
        |f, b| ((31 * usize::from(f) + usize::from(*b)) % 256) as u8,
    )
}

// `len` bytes are zeroed from `at` on. No other byte changes.
pub fn put_zeros(out: &mut [u8], at: usize, len: usize)
    requires { at + len ≤ length out.old }
    ensures { out.new ≡ sets out.old at (replicate len 0) }
{
    out[at..at + len].fill(0);
}

// A length in one byte, the bytes, and zeros up to `most` bytes.
fn put_padded(out: &mut [u8], at: usize, most: usize, bytes: &[u8])
    requires { (length bytes.now ≤ most) × (most ≤ 64) × (at + (1 + most) ≤ length out.old) }
    ensures { out.new ≡ sets out.old at (padded most bytes.now) }
{
    tag_message::put_counted(out, at, bytes);
    put_zeros(out, at + 1 + bytes.len(), most - bytes.len());
}

// The entry of a name and a value, at `at`. No other byte changes.
#[tactic(auto, using(tag_message::specs::MessageLaws::tag_lengths))]
pub fn put_entry(out: &mut [u8], at: usize, name: &[u8], value: &[u8])
    requires { (is_tag name.now value.now ≡ true) × (at + entry_size ≤ length out.old) }
    ensures { out.new ≡ sets out.old at (entry_of name.now value.now) }
{
    put_padded(out, at, NAME_MOST, name);
    put_padded(out, at + VALUE_LENGTH, VALUE_MOST, value);
}
