// A name is looked for in two tables of tags, the station's own and the line's defaults: find, ask and found. Refusals in the order
// 7, 24, 17; asking shows an empty part where it is refused. Tables and name come one by one, as the C interface lends them.
#![tactic(auto)]

ghost use Rattle.std.specs.Prelude.{◌≡◌, ◌+◌, ◌≤◌, ◌<◌, length, IfSome};
ghost use Rattle.tag_survey.specs.Tables.{table_size, entries_in};
ghost use Rattle.tag_find.specs.Findings.{value_at, first_of, find_in, found_by, PartOf, Shows, ShowsOwn, ShowsDefaults};

use tag_entry::{ENTRY, VALUE, VALUE_LENGTH};
use tag_message::{TagRefusal, is_name};
use tag_survey::{SIZE, survey};

// A part of a table, by numbers.
#[derive(Clone, Copy, Debug, PartialEq, Eq)]
pub struct Part {
    pub start: usize,
    pub len: usize,
}

// Where a value is: in the station's own table, or in the line's defaults.
#[derive(Clone, Copy, Debug, PartialEq, Eq)]
pub enum Place {
    Own(Part),
    Defaults(Part),
}

impl Part {
    // This very part of a table.
    fn of(self, table: &[u8]) -> &[u8]
        requires { self.start + self.len ≤ length table.now }
        ensures { PartOf table.entry self result }
    {
        &table[self.start..self.start + self.len]
    }
}

// The value of entry i.
fn value_at(table: &[u8], i: usize) -> Part
    requires { (length table.now ≡ table_size) × (i < 64) }
    ensures { result ≡ value_at (entries_in table.now) i }
{
    let at = ENTRY * i;
    Part {
        start: at + VALUE,
        len: usize::from(table[at + VALUE_LENGTH]),
    }
}

// The value of entry i of the own table, else of entry j of the defaults.
#[tactic(auto, unfolding(crate::specs::Findings::first_of))]
fn first_of(own: &[u8], defaults: &[u8], i: Option<usize>, j: Option<usize>) -> Option<Place>
    requires own { (length own.now ≡ table_size) × IfSome i (λ k. k < 64) }
    requires defaults { (length defaults.now ≡ table_size) × IfSome j (λ k. k < 64) }
    ensures { result ≡ first_of (entries_in own.now) (entries_in defaults.now) i j }
{
    match (i, j) {
        (Some(i), _) => Some(Place::Own(value_at(own, i))),
        (None, Some(j)) => Some(Place::Defaults(value_at(defaults, j))),
        (None, None) => None,
    }
}

// Where the value of a name is: in the station's own table, else in the line's defaults. Refuses 7, 24, 17.
pub fn find(own: &[u8], defaults: &[u8], name: &[u8]) -> Result<Option<Place>, TagRefusal>
    ensures { result ≡ find_in own.now defaults.now name.now }
{
    if own.len() != SIZE || defaults.len() != SIZE {
        return Err(TagRefusal::OtherSize);
    }
    let here = survey(own, name)?;
    let behind = survey(defaults, name)?;
    if !is_name(name) {
        return Err(TagRefusal::NotATag);
    }
    Ok(first_of(own, defaults, here.named, behind.named))
}

// Whether a name is in the station's own table or in the line's defaults. Refuses 7, 24, 17.
pub fn found(own: &[u8], defaults: &[u8], name: &[u8]) -> Result<bool, TagRefusal>
    ensures { result ≡ found_by (find_in own.now defaults.now name.now) }
{
    find(own, defaults, name).map(|place| place.is_some())
}

// The value bytes of a name, without a copy: the very part of the station's own table, else of the line's defaults; an empty
// part where nothing is found, or asking is refused.
pub fn ask<'a>(own: &'a [u8], defaults: &'a [u8], name: &[u8]) -> &'a [u8]
    ensures { Shows (find_in own.now defaults.now name.now) own.entry defaults.entry result }
{
    match find(own, defaults, name) {
        Ok(Some(Place::Own(part))) => part.of(own),
        Ok(Some(Place::Defaults(part))) => part.of(defaults),
        Ok(None) | Err(_) => &own[..0],
    }
}

// The same for each choice, with a lifetime of its own: the value where the own table has it, else an empty part of that table.
// Two functions, as docs/TAGS.md names them: each result lives as long as its own table.
pub fn ask_own<'a>(own: &'a [u8], defaults: &[u8], name: &[u8]) -> &'a [u8]
    ensures { ShowsOwn (find_in own.now defaults.now name.now) own.entry result }
{
    match find(own, defaults, name) {
        Ok(Some(Place::Own(part))) => part.of(own),
        _ => &own[..0],
    }
}

// The value where the own table has none and the defaults have it, else an empty part of the defaults.
pub fn ask_defaults<'a>(own: &[u8], defaults: &'a [u8], name: &[u8]) -> &'a [u8]
    ensures { ShowsDefaults (find_in own.now defaults.now name.now) defaults.entry result }
{
    match find(own, defaults, name) {
        Ok(Some(Place::Defaults(part))) => part.of(defaults),
        _ => &defaults[..0],
    }
}
