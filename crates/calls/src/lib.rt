// The public calls over the block behind a pointer: each answers with its promise. The block is checked where it stands; the records of the
// outstanding segments are gathered from the lent table, or looked at there, and put back; the block's lists are changed in place.
#![tactic(auto)]

ghost use Rattle.std.specs.Prelude.{◌≡◌, length};
ghost use Rattle.promises.specs.Outcomes.{shows};
ghost use Rattle.promises.specs.Parts.{lent_lengths, parts_of, flush_parts_of};
ghost use Rattle.promises.specs.Promises.{OpenPromise, SendPromise, InputPromise, FlushPromise, UpdatePromise, CheckPromise};
ghost use Rattle.promises.specs.Promises.{ReadPromise, SizePromise, ShowsPart, place_of};
ghost use Rattle.open_core.specs.Fresh.{OpenKeeps};
ghost use Rattle.send_core.specs.Sending.{SendKeeps};
ghost use Rattle.input_core.specs.Taking.{InputKeeps};
ghost use Rattle.flush_core.specs.Flushes.{FlushKeeps};
ghost use Rattle.read_core.specs.Messages.{ReadKeeps};
ghost use Rattle.read_core.specs.Places.{PlaceIs};
ghost use Rattle.calls.specs.Written.{WrittenOut};

use answers::Answer;
use control::Link;
use protocol::Settings;
use read_core::Place;
use sizes::Lengths;
use timing::Record;

// How long the lent parts are.
fn lent_lengths(send_pool: &[u8], receive_pool: &[u8], table: &[Record], acks: &[u32]) -> Lengths
    ensures { result ≡ lent_lengths (length table.now) send_pool.now receive_pool.now acks.now }
{
    Lengths {
        send: send_pool.len(),
        receive: receive_pool.len(),
        table: table.len(),
        acks: acks.len(),
    }
}

// Opening with these settings; refused, the old block stays.
pub fn open(
    link: &mut Link,
    new: Settings,
    send_pool: &[u8],
    receive_pool: &[u8],
    table: &[Record],
    acks: &[u32],
) -> Answer<()>
    ensures promise { OpenPromise new link.old
        (parts_of send_pool.now receive_pool.now table.now acks.now)
        result link.new
        (parts_of send_pool.now receive_pool.now table.now acks.now) }
    ensures keeps { OpenKeeps link.old link.new }
{
    open_core::open(
        link,
        new,
        lent_lengths(send_pool, receive_pool, table, acks),
    )
}

// Sending a message.
pub fn send(
    link: &mut Link,
    send_pool: &mut [u8],
    receive_pool: &[u8],
    table: &[Record],
    acks: &[u32],
    message: &[u8],
) -> Answer<()>
    ensures promise { SendPromise message.now link.old
        (parts_of send_pool.old receive_pool.now table.now acks.now)
        result link.new
        (parts_of send_pool.new receive_pool.now table.now acks.now) }
    ensures keeps { SendKeeps link.old link.new }
{
    let mut send_marks = [0; 128];
    let mut receive_marks = [0; 256];
    let lent = lent_lengths(send_pool, receive_pool, table, acks);
    let long = sizes::enough(link.settings, lent);
    block_check::check(link, long, table, &mut send_marks, &mut receive_marks)?;
    send_core::send_checked(link, &send_marks, send_pool, message)
}

// Taking in a datagram.
pub fn input(
    link: &mut Link,
    send_pool: &[u8],
    receive_pool: &mut [u8],
    table: &mut [Record],
    acks: &mut [u32],
    datagram: &[u8],
) -> Answer<()>
    ensures promise { InputPromise datagram.now link.old
        (parts_of send_pool.now receive_pool.old table.old acks.old)
        result link.new
        (parts_of send_pool.now receive_pool.new table.new acks.new) }
    ensures keeps { InputKeeps link.old link.new }
{
    let mut send_marks = [0; 128];
    let mut receive_marks = [0; 256];
    let lent = lent_lengths(send_pool, receive_pool, table, acks);
    let long = sizes::enough(link.settings, lent);
    let mut records = records::none();
    gathering::gather(
        table,
        &link.outstanding,
        link.flight.outstanding,
        &mut records,
    );
    block_check::check_gathered(link, long, &records, &mut send_marks, &mut receive_marks)?;
    let changed = input_core::input_checked(
        link,
        &mut records,
        &receive_marks,
        receive_pool,
        acks,
        datagram,
    )?;
    gathering::scatter(table, &link.outstanding, changed, &records);
    Ok(())
}

// A flush, or where it is paced an update.
fn write(
    link: &mut Link,
    send_pool: &[u8],
    receive_pool: &[u8],
    table: &mut [Record],
    acks: &[u32],
    paced: bool,
    t: u32,
    output: &mut [u8],
    lengths: &mut [u16],
) -> Answer<Option<usize>>
    ensures writes { WrittenOut paced t link.old
        (parts_of send_pool.now receive_pool.now table.old acks.now)
        (flush_parts_of output.old lengths.old) result link.new
        (parts_of send_pool.now receive_pool.now table.new acks.now)
        (flush_parts_of output.new lengths.new) }
    ensures keeps { FlushKeeps link.old link.new }
{
    let mut send_marks = [0; 128];
    let mut receive_marks = [0; 256];
    let lent = lent_lengths(send_pool, receive_pool, table, acks);
    let long = sizes::enough_to_flush(link.settings, lent, output.len(), lengths.len());
    let mut records = records::none();
    gathering::gather(
        table,
        &link.outstanding,
        link.flight.outstanding,
        &mut records,
    );
    block_check::check_gathered(link, long, &records, &mut send_marks, &mut receive_marks)?;
    let flushed = flush_core::flush_checked(
        link,
        &mut records,
        send_pool,
        acks,
        paced,
        t,
        output,
        lengths,
    );
    lending::whole(link);
    gathering::scatter(table, &link.outstanding, flushed.changed, &records);
    Ok(flushed.written)
}

// A flush at time t: how many datagrams it wrote.
pub fn flush(
    link: &mut Link,
    send_pool: &[u8],
    receive_pool: &[u8],
    table: &mut [Record],
    acks: &[u32],
    t: u32,
    output: &mut [u8],
    lengths: &mut [u16],
) -> Answer<usize>
    ensures promise { FlushPromise t link.old
        (parts_of send_pool.now receive_pool.now table.old acks.now)
        (flush_parts_of output.old lengths.old) result link.new
        (parts_of send_pool.now receive_pool.now table.new acks.now)
        (flush_parts_of output.new lengths.new) }
    ensures keeps { FlushKeeps link.old link.new }
{
    match write(
        link,
        send_pool,
        receive_pool,
        table,
        acks,
        false,
        t,
        output,
        lengths,
    ) {
        Ok(written) => Ok(written.unwrap_or(0)),
        Err(refusal) => Err(refusal),
    }
}

// An update at time t: how many datagrams its flush wrote, if it flushed.
pub fn update(
    link: &mut Link,
    send_pool: &[u8],
    receive_pool: &[u8],
    table: &mut [Record],
    acks: &[u32],
    t: u32,
    output: &mut [u8],
    lengths: &mut [u16],
) -> Answer<Option<usize>>
    ensures promise { UpdatePromise t link.old
        (parts_of send_pool.now receive_pool.now table.old acks.now)
        (flush_parts_of output.old lengths.old) result link.new
        (parts_of send_pool.now receive_pool.now table.new acks.now)
        (flush_parts_of output.new lengths.new) }
    ensures keeps { FlushKeeps link.old link.new }
{
    write(
        link,
        send_pool,
        receive_pool,
        table,
        acks,
        true,
        t,
        output,
        lengths,
    )
}

// Naming the time at which the next update is wanted.
pub fn check(
    link: &Link,
    send_pool: &[u8],
    receive_pool: &[u8],
    table: &[Record],
    acks: &[u32],
    t: u32,
) -> Answer<u32>
    ensures { CheckPromise t link.now
        (parts_of send_pool.now receive_pool.now table.now acks.now) result }
{
    let mut send_marks = [0; 128];
    let mut receive_marks = [0; 256];
    let lent = lent_lengths(send_pool, receive_pool, table, acks);
    let long = sizes::enough(link.settings, lent);
    let mut records = records::none();
    gathering::gather(
        table,
        &link.outstanding,
        link.flight.outstanding,
        &mut records,
    );
    block_check::check_gathered(link, long, &records, &mut send_marks, &mut receive_marks)?;
    Ok(check_core::next_update(link, &records, t))
}

// Reading a message: how many bytes it has.
pub fn read(
    link: &mut Link,
    send_pool: &[u8],
    receive_pool: &[u8],
    table: &[Record],
    acks: &[u32],
    buffer: &mut [u8],
) -> Answer<usize>
    ensures promise { ReadPromise link.old
        (parts_of send_pool.now receive_pool.now table.now acks.now)
        buffer.old result link.new
        (parts_of send_pool.now receive_pool.now table.now acks.now)
        buffer.new }
    ensures keeps { ReadKeeps link.old link.new }
{
    let mut send_marks = [0; 128];
    let mut receive_marks = [0; 256];
    let lent = lent_lengths(send_pool, receive_pool, table, acks);
    let long = sizes::enough(link.settings, lent);
    block_check::check(link, long, table, &mut send_marks, &mut receive_marks)?;
    read_core::read_checked(link, receive_pool, buffer)
}

// Telling the size of the next message.
pub fn size(
    link: &Link,
    send_pool: &[u8],
    receive_pool: &[u8],
    table: &[Record],
    acks: &[u32],
) -> Answer<usize>
    ensures { SizePromise link.now
        (parts_of send_pool.now receive_pool.now table.now acks.now) result }
{
    let mut send_marks = [0; 128];
    let mut receive_marks = [0; 256];
    let lent = lent_lengths(send_pool, receive_pool, table, acks);
    let long = sizes::enough(link.settings, lent);
    block_check::check(link, long, table, &mut send_marks, &mut receive_marks)?;
    read_core::size_checked(link)
}

// Where in the receive pool the front segment's payload lies; 0 and 0 where showing is refused.
pub fn locate(
    link: &Link,
    send_pool: &[u8],
    receive_pool: &[u8],
    table: &[Record],
    acks: &[u32],
) -> Place
    ensures { PlaceIs (place_of (shows link.now
        (parts_of send_pool.now receive_pool.now table.now acks.now)))
        (length receive_pool.now) result }
{
    let mut send_marks = [0; 128];
    let mut receive_marks = [0; 256];
    let lent = lent_lengths(send_pool, receive_pool, table, acks);
    let long = sizes::enough(link.settings, lent);
    match block_check::check(link, long, table, &mut send_marks, &mut receive_marks) {
        Ok(()) => read_core::locate_checked(link),
        Err(_) => Place { start: 0, count: 0 },
    }
}

// The front segment's payload, the very part of the receive pool that holds it; an empty part where showing is refused.
pub fn show<'a>(
    link: &Link,
    send_pool: &[u8],
    receive_pool: &'a [u8],
    table: &[Record],
    acks: &[u32],
) -> &'a [u8]
    ensures { ShowsPart (shows link.now
        (parts_of send_pool.now receive_pool.now table.now acks.now))
        receive_pool.entry.ref_ptr receive_pool.now result.ref_ptr result.now }
{
    let place = locate(link, send_pool, receive_pool, table, acks);
    read_core::part_at(receive_pool, place)
}
