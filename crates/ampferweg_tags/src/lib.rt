// Tags for C: tag messages and tables of tags. A number below zero is a refusal's.
#![tactic(auto)]

ghost use Rattle.std.specs.Prelude.{◌≡◌};
ghost use Rattle.codes.specs.Codes.{number_code};
ghost use Rattle.tag_message.specs.Tags.{number_of};
ghost use Rattle.tag_message.specs.Messages.{read_from};
ghost use Rattle.tag_find.specs.Findings.{find_in, found_by};
ghost use Rattle.ampferweg_tags.specs.TagCodes.{presence_code, TellsWriting, Stores};
ghost use Rattle.ampferweg_tags.specs.TagCodes.{TellsSet, TellsTake, TellsRemove, TellsPlace};

use tag_find::{Part, Place};
use tag_message::TagRefusal;

fn refusal_code(refusal: TagRefusal) -> i32
    ensures { result ≡ number_code (number_of refusal) }
{
    codes::number_code(refusal.number())
}

// Writes the message of a name and a value at the start of a part: its length, or the refusal.
pub fn ampferweg_tag_write(name: &[u8], value: &[u8], message: &mut [u8]) -> i32
    ensures { TellsWriting name.now value.now message.old result message.new }
{
    match tag_message::write(name, value, message) {
        Ok(len) => len as i32,
        Err(refusal) => refusal_code(refusal),
    }
}

// Reads a message: 0, and the lengths of its name and its value are stored; or the refusal, and nothing is.
pub fn ampferweg_tag_read(message: &[u8], name_len: &mut usize, value_len: &mut usize) -> i32
    ensures { Stores (read_from message.now) result
        name_len.old value_len.old name_len.new value_len.new }
{
    match tag_message::read(message) {
        Ok(tag) => {
            *name_len = tag.name;
            *value_len = tag.value;
            0
        }
        Err(refusal) => refusal_code(refusal),
    }
}

// Sets a tag: 0, or the refusal.
pub fn ampferweg_tag_set(table: &mut [u8], name: &[u8], value: &[u8]) -> i32
    ensures { TellsSet name.now value.now table.old result table.new }
{
    tag_table::set(table, name, value).map_or_else(refusal_code, |()| 0)
}

// Reads a message and sets its tag: 0, or the refusal.
pub fn ampferweg_tag_take(table: &mut [u8], message: &[u8]) -> i32
    ensures { TellsTake message.now table.old result table.new }
{
    tag_table::take(table, message).map_or_else(refusal_code, |()| 0)
}

// Removes a name: 0, or the refusal.
pub fn ampferweg_tag_remove(table: &mut [u8], name: &[u8]) -> i32
    ensures { TellsRemove name.now table.old result table.new }
{
    tag_table::remove(table, name).map_or_else(refusal_code, |()| 0)
}

// Where the value of a name is: 0 for the own table, 1 for the defaults, and start and length of the part; 0 and an empty part
// where nothing is found, or asking is refused.
pub fn ampferweg_tag_ask(
    own: &[u8],
    defaults: &[u8],
    name: &[u8],
    start: &mut usize,
    len: &mut usize,
) -> i32
    ensures { TellsPlace (find_in own.now defaults.now name.now) result start.new
        len.new }
{
    let (table, part) = match tag_find::find(own, defaults, name) {
        Ok(Some(Place::Own(part))) => (0, part),
        Ok(Some(Place::Defaults(part))) => (1, part),
        Ok(None) | Err(_) => (0, Part { start: 0, len: 0 }),
    };
    *start = part.start;
    *len = part.len;
    table
}

// Whether a name is found: 1, 0, or the refusal.
pub fn ampferweg_tag_found(own: &[u8], defaults: &[u8], name: &[u8]) -> i32
    ensures { result ≡ presence_code (found_by (find_in own.now defaults.now name.now)) }
{
    tag_find::found(own, defaults, name).map_or_else(refusal_code, |found| i32::from(found))
}
