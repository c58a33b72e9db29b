// A table of tags is changed: set, take and remove. Refusals in the order 7, 24, 17, 18 or 19; a refused call changes nothing.
#![tactic(auto)]

ghost use Rattle.tag_table.specs.Changes.{SetsTag, TakesTag, RemovesTag};

use tag_entry::{ENTRY, put_entry, put_zeros};
use tag_message::{TagRefusal, is_name, is_tag};
use tag_survey::survey;

// Sets a tag: a known name's value is replaced, a new name takes the lowest free entry. Refuses 7, 24, 17, 18.
pub fn set(table: &mut [u8], name: &[u8], value: &[u8]) -> Result<(), TagRefusal>
    ensures { SetsTag name.now value.now table.old result table.new }
{
    let seen = survey(table, name)?;
    if !is_tag(name, value) {
        return Err(TagRefusal::NotATag);
    }
    let at = seen.place().ok_or(TagRefusal::Full)?;
    put_entry(table, ENTRY * at, name, value);
    Ok(())
}

// Reads a tag message and sets its tag. Refuses 7, 24, 17, 18.
pub fn take(table: &mut [u8], message: &[u8]) -> Result<(), TagRefusal>
    ensures { TakesTag message.now table.old result table.new }
{
    match tag_message::read(message) {
        Ok(tag) => {
            let middle = 1 + tag.name;
            let start = middle + 1;
            set(
                table,
                &message[1..middle],
                &message[start..start + tag.value],
            )
        }
        // the empty name is no name: 7, 24, then 17
        Err(_) => set(table, &[], &[]),
    }
}

// Removes a name: its entry is zeroed. Refuses 7, 24, 17, 19.
pub fn remove(table: &mut [u8], name: &[u8]) -> Result<(), TagRefusal>
    ensures { RemovesTag name.now table.old result table.new }
{
    let seen = survey(table, name)?;
    if !is_name(name) {
        return Err(TagRefusal::NotATag);
    }
    let at = seen.named.ok_or(TagRefusal::Absent)?;
    put_zeros(table, ENTRY * at, ENTRY);
    Ok(())
}
