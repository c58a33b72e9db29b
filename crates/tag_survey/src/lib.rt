// One pass over a table of tags: whether it is in its rules, where a name is, and which entry is the lowest free one.
#![tactic(auto)]

ghost use Rattle.std.specs.Prelude.{◌≡◌, List, [], ◌∷◌, ◌++◌, length};
ghost use Rattle.std.specs.List.{list_any};
ghost use Rattle.std.specs.Option.{option_or};
ghost use Rattle.tag_entry.specs.Entries.{is_named};
ghost use Rattle.tag_survey.specs.Tables.{table_size, entries_in, is_fresh};
ghost use Rattle.tag_survey.specs.Surveys.{Met, seen_after, surveyed};

use tag_entry::{ENTRY, Entry, fingerprint, is_entry, is_named, name_of};
use tag_message::TagRefusal;

// How many entries a table has, and its bytes.
pub const ENTRIES: usize = 64;

pub const SIZE: usize = ENTRIES * ENTRY;

// The first entry with a name, and the lowest free one.
#[derive(Clone, Copy, Debug, PartialEq, Eq)]
pub struct Seen {
    pub named: Option<usize>,
    pub free: Option<usize>,
}

impl Seen {
    // With the entry at i: a place that was found stays.
    fn with(self, i: usize, e: &Entry, name: &[u8]) -> Seen
        ensures { result ≡ seen_after name.now i e.now self }
    {
        let mut seen = self;
        if seen.named.is_none() && is_named(e, name) {
            seen.named = Some(i);
        }
        if seen.free.is_none() && e[0] == 0 {
            seen.free = Some(i);
        }
        seen
    }

    // The place of the name, else the lowest free one.
    pub fn place(self) -> Option<usize>
        ensures { result ≡ option_or self.named self.free }
    {
        self.named.or(self.free)
    }
}

// Whether one of these entries has this name.
fn named_among(entries: &[Entry], name: &[u8]) -> bool
    ensures { result ≡ list_any (is_named name.now) entries.now }
{
    entries.iter().any(|e| is_named(e, name))
}

// Whether no entry before this one has its name. `met` has the fingerprints of the names before it; only where its own is
// among them are the names compared. It is among them then.
fn is_fresh(before: &[Entry], e: &Entry, met: &mut [bool; 256]) -> bool
    requires { Met met.old before.now }
    ensures fresh { result ≡ is_fresh before.now e.now }
    ensures fingerprints { Met met.new (before.now ++ e.now ∷ []) }
{
    if e[0] == 0 {
        return true;
    }
    let name = name_of(e);
    let f = usize::from(fingerprint(name));
    let known = met[f];
    met[f] = true;
    !known || !named_among(before, name)
}

// The entries of a table.
fn entries_in(table: &[u8]) -> &[Entry]
    requires { length table.now ≡ table_size }
    ensures { result.now ≡ entries_in table.now }
{
    table.as_chunks().0
}

// Looks at each entry once. Refuses 7, 24.
pub fn survey(table: &[u8], name: &[u8]) -> Result<Seen, TagRefusal>
    ensures { result ≡ surveyed name.now table.now }
{
    if table.len() != SIZE {
        return Err(TagRefusal::OtherSize);
    }
    let entries = entries_in(table);
    let mut met = [false; 256];
    let mut seen = Seen {
        named: None,
        free: None,
    };
    for (i, e) in entries.iter().enumerate() {
        if !is_entry(e) || !is_fresh(&entries[..i], e, &mut met) {
            return Err(TagRefusal::NotATable);
        }
        seen = seen.with(i, e, name);
    }
    Ok(seen)
}
