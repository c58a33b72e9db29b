// The calls of a link for a program that keeps block and table by value: of the table the first `lent` records are lent, or all where it
// has fewer.
#![tactic(auto)]

ghost use Rattle.std.specs.Prelude.{◌≡◌, length, take, drop};
ghost use Rattle.promises.specs.Promises.{ShowsPart};
ghost use Rattle.promises.specs.Parts.{parts_of, flush_parts_of};
ghost use Rattle.promises.specs.Outcomes.{shows};
ghost use Rattle.promises.specs.Promises.{OpenPromise, SendPromise, InputPromise, FlushPromise, ReadPromise, SizePromise};
ghost use Rattle.promises.specs.Promises.{UpdatePromise, CheckPromise};

use answers::Answer;
use control::Link;
use protocol::Settings;
use timing::Record;

// The answer of opening or sending, and the block after it.
#[derive(Clone, Copy)]
pub struct Answered {
    pub answer: Answer<()>,
    pub link: Link,
}

// The answer of a read, and the block after it.
#[derive(Clone, Copy)]
pub struct Counted {
    pub answer: Answer<usize>,
    pub link: Link,
}

// The answer of taking in, and block and table after it.
#[derive(Clone, Copy)]
pub struct TakenIn {
    pub answer: Answer<()>,
    pub link: Link,
    pub table: [Record; 128],
}

// The answer of a flush, and block and table after it.
#[derive(Clone, Copy)]
pub struct FlushedOut {
    pub answer: Answer<usize>,
    pub link: Link,
    pub table: [Record; 128],
}

// The answer of an update, and block and table after it.
#[derive(Clone, Copy)]
pub struct UpdatedOut {
    pub answer: Answer<Option<usize>>,
    pub link: Link,
    pub table: [Record; 128],
}

// Opening a link with these settings: a refused opening leaves the old block.
pub fn open(
    link: Link,
    new: Settings,
    send_pool: &[u8],
    receive_pool: &[u8],
    table: [Record; 128],
    lent: usize,
    acks: &[u32],
) -> Answered
    ensures { OpenPromise new link (parts_of send_pool.now receive_pool.now (take lent table)
        acks.now)
        result.answer result.link (parts_of send_pool.now receive_pool.now (take lent table) acks.now) }
{
    let mut after = link;
    let records = &table[..lent.min(128)];
    let answer = calls::open(&mut after, new, send_pool, receive_pool, records, acks);
    Answered {
        answer,
        link: after,
    }
}

// Sending a message.
pub fn send(
    link: Link,
    send_pool: &mut [u8],
    receive_pool: &[u8],
    table: [Record; 128],
    lent: usize,
    acks: &[u32],
    message: &[u8],
) -> Answered
    ensures { SendPromise message.now link
        (parts_of send_pool.old receive_pool.now (take lent table) acks.now)
        result.answer result.link (parts_of send_pool.new receive_pool.now (take lent table) acks.now) }
{
    let mut after = link;
    let records = &table[..lent.min(128)];
    let answer = calls::send(&mut after, send_pool, receive_pool, records, acks, message);
    Answered {
        answer,
        link: after,
    }
}

// Taking in a datagram. The records that are not lent stay as they were.
pub fn input(
    link: Link,
    send_pool: &[u8],
    receive_pool: &mut [u8],
    table: [Record; 128],
    lent: usize,
    acks: &mut [u32],
    datagram: &[u8],
) -> TakenIn
    ensures { InputPromise datagram.now link
        (parts_of send_pool.now receive_pool.old (take lent table) acks.old)
        result.answer result.link (parts_of send_pool.now receive_pool.new (take lent result.table) acks.new)
        × (drop lent result.table ≡ drop lent table) }
{
    let mut after = link;
    let mut next = table;
    let records = &mut next[..lent.min(128)];
    let answer = calls::input(&mut after, send_pool, receive_pool, records, acks, datagram);
    TakenIn {
        answer,
        link: after,
        table: next,
    }
}

// A flush at time t. The records that are not lent stay as they were.
pub fn flush(
    link: Link,
    send_pool: &[u8],
    receive_pool: &[u8],
    table: [Record; 128],
    lent: usize,
    acks: &[u32],
    t: u32,
    output: &mut [u8],
    lengths: &mut [u16],
) -> FlushedOut
    ensures { FlushPromise t link (parts_of send_pool.now receive_pool.now (take lent table)
        acks.now)
        (flush_parts_of output.old lengths.old)
        result.answer result.link (parts_of send_pool.now receive_pool.now (take lent result.table) acks.now)
        (flush_parts_of output.new lengths.new) × (drop lent result.table ≡ drop lent table) }
{
    let mut after = link;
    let mut next = table;
    let records = &mut next[..lent.min(128)];
    let answer = calls::flush(
        &mut after,
        send_pool,
        receive_pool,
        records,
        acks,
        t,
        output,
        lengths,
    );
    FlushedOut {
        answer,
        link: after,
        table: next,
    }
}

// An update at time t. The records that are not lent stay as they were.
pub fn update(
    link: Link,
    send_pool: &[u8],
    receive_pool: &[u8],
    table: [Record; 128],
    lent: usize,
    acks: &[u32],
    t: u32,
    output: &mut [u8],
    lengths: &mut [u16],
) -> UpdatedOut
    ensures { UpdatePromise t link
        (parts_of send_pool.now receive_pool.now (take lent table) acks.now)
        (flush_parts_of output.old lengths.old)
        result.answer result.link (parts_of send_pool.now receive_pool.now (take lent result.table) acks.now)
        (flush_parts_of output.new lengths.new) × (drop lent result.table ≡ drop lent table) }
{
    let mut after = link;
    let mut next = table;
    let records = &mut next[..lent.min(128)];
    let answer = calls::update(
        &mut after,
        send_pool,
        receive_pool,
        records,
        acks,
        t,
        output,
        lengths,
    );
    UpdatedOut {
        answer,
        link: after,
        table: next,
    }
}

// Reading a message into a buffer.
pub fn read(
    link: Link,
    send_pool: &[u8],
    receive_pool: &[u8],
    table: [Record; 128],
    lent: usize,
    acks: &[u32],
    buffer: &mut [u8],
) -> Counted
    ensures { ReadPromise link (parts_of send_pool.now receive_pool.now (take lent table)
        acks.now) buffer.old
        result.answer result.link (parts_of send_pool.now receive_pool.now (take lent table) acks.now)
        buffer.new }
{
    let mut after = link;
    let records = &table[..lent.min(128)];
    let answer = calls::read(&mut after, send_pool, receive_pool, records, acks, buffer);
    Counted {
        answer,
        link: after,
    }
}

// Telling the size of the next message.
pub fn size(
    link: Link,
    send_pool: &[u8],
    receive_pool: &[u8],
    table: [Record; 128],
    lent: usize,
    acks: &[u32],
) -> Answer<usize>
    ensures { SizePromise link (parts_of send_pool.now receive_pool.now (take lent table)
        acks.now) result }
{
    calls::size(
        &link,
        send_pool,
        receive_pool,
        &table[..lent.min(128)],
        acks,
    )
}

// Naming the time at which the next update is wanted.
pub fn check(
    link: Link,
    send_pool: &[u8],
    receive_pool: &[u8],
    table: [Record; 128],
    lent: usize,
    acks: &[u32],
    t: u32,
) -> Answer<u32>
    ensures { CheckPromise t link
        (parts_of send_pool.now receive_pool.now (take lent table) acks.now) result }
{
    calls::check(
        &link,
        send_pool,
        receive_pool,
        &table[..lent.min(128)],
        acks,
        t,
    )
}

// The front segment's payload of the next message, the very part of the receive pool that holds it.
pub fn show<'a>(
    link: Link,
    send_pool: &[u8],
    receive_pool: &'a [u8],
    table: [Record; 128],
    lent: usize,
    acks: &[u32],
) -> &'a [u8]
    ensures { ShowsPart (shows link (parts_of send_pool.now receive_pool.now (take lent table)
        acks.now)) receive_pool.entry.ref_ptr receive_pool.now result.ref_ptr result.now }
{
    calls::show(
        &link,
        send_pool,
        receive_pool,
        &table[..lent.min(128)],
        acks,
    )
}
