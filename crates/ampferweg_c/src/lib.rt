// What C calls of the link: each function gives what it is given to the one of its name in `ampferweg`.
#![tactic(auto)]

pub mod settings;

ghost use Rattle.promises.specs.Parts.{parts_of, flush_parts_of};
ghost use Rattle.promises.specs.Promises.{OpenPromise, SendPromise, InputPromise, FlushPromise, UpdatePromise, ReadPromise, SizePromise};
ghost use Rattle.codes.specs.Codes.{answer_code, count_code, update_code, time_code, settings_of};
ghost use Rattle.codes.specs.Gives.{Gives};
ghost use Rattle.results.specs.PlaceCodes.{place_code};
ghost use Rattle.std.specs.Prelude.{◌≡◌};
ghost use Rattle.archive.specs.Blocks.{block_size, version_number};
ghost use Rattle.results.specs.Places.{PlacePromise};
ghost use Rattle.results.specs.Times.{TimePromise};

use control::Link;
use timing::Record;

// Opening with these settings: 0, or the refusal. A number that is too large for its setting is out of range.
#[unsafe(no_mangle)]
pub extern "C" fn ampferweg_open(
    link: &mut Link,
    conv: u32,
    mtu: u32,
    mode: u32,
    interval: u32,
    threshold: u32,
    stream: u32,
    congestion: u32,
    send_pool: &[u8],
    receive_pool: &[u8],
    table: &[Record],
    acks: &[u32],
) -> i32
    ensures { Gives answer_code (λ a. OpenPromise (settings_of conv mtu mode interval threshold stream congestion) link.old
        (parts_of send_pool.now receive_pool.now table.now acks.now)
        a link.new
        (parts_of send_pool.now receive_pool.now table.now acks.now)) result }
{
    ampferweg::ampferweg_open(
        link,
        conv,
        mtu,
        mode,
        interval,
        threshold,
        stream,
        congestion,
        send_pool,
        receive_pool,
        table,
        acks,
    )
}

// Sending a message: 0, or the refusal.
#[unsafe(no_mangle)]
pub extern "C" fn ampferweg_send(
    link: &mut Link,
    send_pool: &mut [u8],
    receive_pool: &[u8],
    table: &[Record],
    acks: &[u32],
    message: &[u8],
) -> i32
    ensures { Gives answer_code (λ a. SendPromise message.now link.old
        (parts_of send_pool.old receive_pool.now table.now acks.now)
        a link.new
        (parts_of send_pool.new receive_pool.now table.now acks.now)) result }
{
    ampferweg::ampferweg_send(link, send_pool, receive_pool, table, acks, message)
}

// Taking in a datagram: 0, or the refusal.
#[unsafe(no_mangle)]
pub extern "C" fn ampferweg_input(
    link: &mut Link,
    send_pool: &[u8],
    receive_pool: &mut [u8],
    table: &mut [Record],
    acks: &mut [u32],
    datagram: &[u8],
) -> i32
    ensures { Gives answer_code (λ a. InputPromise datagram.now link.old
        (parts_of send_pool.now receive_pool.old table.old acks.old)
        a link.new
        (parts_of send_pool.now receive_pool.new table.new acks.new)) result }
{
    ampferweg::ampferweg_input(link, send_pool, receive_pool, table, acks, datagram)
}

// A flush at time t: its datagrams, or the refusal.
#[unsafe(no_mangle)]
pub extern "C" fn ampferweg_flush(
    link: &mut Link,
    send_pool: &[u8],
    receive_pool: &[u8],
    table: &mut [Record],
    acks: &[u32],
    t: u32,
    output: &mut [u8],
    lengths: &mut [u16],
) -> i32
    ensures { Gives count_code (λ a. FlushPromise t link.old
        (parts_of send_pool.now receive_pool.now table.old acks.now)
        (flush_parts_of output.old lengths.old) a link.new
        (parts_of send_pool.now receive_pool.now table.new acks.now)
        (flush_parts_of output.new lengths.new)) result }
{
    ampferweg::ampferweg_flush(
        link,
        send_pool,
        receive_pool,
        table,
        acks,
        t,
        output,
        lengths,
    )
}

// An update at time t: the datagrams of its flush, the number of one that does not flush, or the refusal.
#[unsafe(no_mangle)]
pub extern "C" fn ampferweg_update(
    link: &mut Link,
    send_pool: &[u8],
    receive_pool: &[u8],
    table: &mut [Record],
    acks: &[u32],
    t: u32,
    output: &mut [u8],
    lengths: &mut [u16],
) -> i32
    ensures { Gives update_code (λ a. UpdatePromise t link.old
        (parts_of send_pool.now receive_pool.now table.old acks.now)
        (flush_parts_of output.old lengths.old) a link.new
        (parts_of send_pool.now receive_pool.now table.new acks.now)
        (flush_parts_of output.new lengths.new)) result }
{
    ampferweg::ampferweg_update(
        link,
        send_pool,
        receive_pool,
        table,
        acks,
        t,
        output,
        lengths,
    )
}

// Naming the time at which the next update is wanted: it is stored, and 0 returned, or the refusal, and nothing is stored.
#[unsafe(no_mangle)]
pub extern "C" fn ampferweg_check(
    link: &Link,
    send_pool: &[u8],
    receive_pool: &[u8],
    table: &[Record],
    acks: &[u32],
    t: u32,
    when: &mut u32,
) -> i32
    ensures { Gives time_code (λ a. TimePromise t link.now
        (parts_of send_pool.now receive_pool.now table.now acks.now) a
        when.old when.new) result }
{
    ampferweg::ampferweg_check(link, send_pool, receive_pool, table, acks, t, when)
}

// Reading a message: its bytes, or the refusal.
#[unsafe(no_mangle)]
pub extern "C" fn ampferweg_read(
    link: &mut Link,
    send_pool: &[u8],
    receive_pool: &[u8],
    table: &[Record],
    acks: &[u32],
    buffer: &mut [u8],
) -> i32
    ensures { Gives count_code (λ a. ReadPromise link.old
        (parts_of send_pool.now receive_pool.now table.now acks.now)
        buffer.old a link.new
        (parts_of send_pool.now receive_pool.now table.now acks.now)
        buffer.new) result }
{
    ampferweg::ampferweg_read(link, send_pool, receive_pool, table, acks, buffer)
}

// Telling the size of the next message: its bytes, or the refusal.
#[unsafe(no_mangle)]
pub extern "C" fn ampferweg_size(
    link: &Link,
    send_pool: &[u8],
    receive_pool: &[u8],
    table: &[Record],
    acks: &[u32],
) -> i32
    ensures { Gives count_code (λ a. SizePromise link.now
        (parts_of send_pool.now receive_pool.now table.now acks.now) a) result }
{
    ampferweg::ampferweg_size(link, send_pool, receive_pool, table, acks)
}

// Where in the receive pool the front segment's payload lies: its start is stored, its bytes are counted; 0 and 0 where
// showing is refused.
#[unsafe(no_mangle)]
pub extern "C" fn ampferweg_show(
    link: &Link,
    send_pool: &[u8],
    receive_pool: &[u8],
    table: &[Record],
    acks: &[u32],
    start: &mut u32,
) -> i32
    ensures { Gives place_code (λ a. PlacePromise link.now
        (parts_of send_pool.now receive_pool.now table.now acks.now) a start.new) result }
{
    ampferweg::ampferweg_show(link, send_pool, receive_pool, table, acks, start)
}

// The bytes of the control block that these functions have, for a host that compares them with its header's.
#[unsafe(no_mangle)]
pub extern "C" fn ampferweg_block_size() -> u32
    ensures { result ≡ block_size }
{
    ampferweg::ampferweg_block_size()
}

// The version of these functions, as one number.
#[unsafe(no_mangle)]
pub extern "C" fn ampferweg_version_number() -> u32
    ensures { result ≡ version_number }
{
    ampferweg::ampferweg_version_number()
}
