// What C calls of tags: each function gives what it is given to the one of its name in `ampferweg_tags`.
#![tactic(auto)]

ghost use Rattle.std.specs.Prelude.{◌≡◌};
ghost use Rattle.tag_message.specs.Messages.{read_from};
ghost use Rattle.tag_find.specs.Findings.{find_in, found_by};
ghost use Rattle.ampferweg_tags.specs.TagCodes.{presence_code, TellsWriting, Stores};
ghost use Rattle.ampferweg_tags.specs.TagCodes.{TellsSet, TellsTake, TellsRemove, TellsPlace};

// Writes the message of a name and a value at the start of a part: its length, or the refusal.
#[unsafe(no_mangle)]
pub extern "C" fn ampferweg_tag_write(name: &[u8], value: &[u8], message: &mut [u8]) -> i32
    ensures { TellsWriting name.now value.now message.old result message.new }
{
    ampferweg_tags::ampferweg_tag_write(name, value, message)
}

// Reads a message: 0, and the lengths of its name and its value are stored; or the refusal, and nothing is.
#[unsafe(no_mangle)]
pub extern "C" fn ampferweg_tag_read(
    message: &[u8],
    name_len: &mut usize,
    value_len: &mut usize,
) -> i32
    ensures { Stores (read_from message.now) result
        name_len.old value_len.old name_len.new value_len.new }
{
    ampferweg_tags::ampferweg_tag_read(message, name_len, value_len)
}

// Sets a tag: 0, or the refusal.
#[unsafe(no_mangle)]
pub extern "C" fn ampferweg_tag_set(table: &mut [u8], name: &[u8], value: &[u8]) -> i32
    ensures { TellsSet name.now value.now table.old result table.new }
{
    ampferweg_tags::ampferweg_tag_set(table, name, value)
}

// Reads a message and sets its tag: 0, or the refusal.
#[unsafe(no_mangle)]
pub extern "C" fn ampferweg_tag_take(table: &mut [u8], message: &[u8]) -> i32
    ensures { TellsTake message.now table.old result table.new }
{
    ampferweg_tags::ampferweg_tag_take(table, message)
}

// Removes a name: 0, or the refusal.
#[unsafe(no_mangle)]
pub extern "C" fn ampferweg_tag_remove(table: &mut [u8], name: &[u8]) -> i32
    ensures { TellsRemove name.now table.old result table.new }
{
    ampferweg_tags::ampferweg_tag_remove(table, name)
}

// Where the value of a name is: 0 for the own table, 1 for the defaults, and start and length of the part; 0 and an empty part
// where nothing is found, or asking is refused.
#[unsafe(no_mangle)]
pub extern "C" fn ampferweg_tag_ask(
    own: &[u8],
    defaults: &[u8],
    name: &[u8],
    start: &mut usize,
    len: &mut usize,
) -> i32
    ensures { TellsPlace (find_in own.now defaults.now name.now) result start.new
        len.new }
{
    ampferweg_tags::ampferweg_tag_ask(own, defaults, name, start, len)
}

// Whether a name is found: 1, 0, or the refusal.
#[unsafe(no_mangle)]
pub extern "C" fn ampferweg_tag_found(own: &[u8], defaults: &[u8], name: &[u8]) -> i32
    ensures { result ≡ presence_code (found_by (find_in own.now defaults.now name.now)) }
{
    ampferweg_tags::ampferweg_tag_found(own, defaults, name)
}
