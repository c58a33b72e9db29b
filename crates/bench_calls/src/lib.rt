// The link's calls over the state of the bench: each is lent as much of every part as the bench says.
#![tactic(auto)]

ghost use Rattle.std.specs.Prelude.{◌≡◌};
ghost use Rattle.bench_calls.specs.Fronts.{Front};
ghost use Rattle.bench_calls.specs.BenchPromises.{after, after_open, BenchOpens, BenchSends, BenchTakesIn};
ghost use Rattle.bench_calls.specs.BenchPromises.{BenchFlushes, BenchReads, BenchTells, BenchShows};
ghost use Rattle.bench_calls.specs.BenchPromises.{BenchUpdates, BenchChecks};

use answers::Answer;
use bench::Bench;
use protocol::Settings;
use value_calls::{FlushedOut, TakenIn, UpdatedOut};

// The answer of opening, sending or taking in, and the bench after it.
#[derive(Clone, Copy)]
pub struct Answered {
    pub answer: Answer<()>,
    pub bench: Bench,
}

// The answer of a flush or a read, and the bench after it.
#[derive(Clone, Copy)]
pub struct Counted {
    pub answer: Answer<usize>,
    pub bench: Bench,
}

// The answer of an update, and the bench after it.
#[derive(Clone, Copy)]
pub struct Updated {
    pub answer: Answer<Option<usize>>,
    pub bench: Bench,
}

// How much of a part is lent: the count, or all where it has fewer.
pub fn front(count: usize, part: &[u8]) -> usize
    ensures { Front count result part.now }
{
    if count < part.len() {
        return count;
    }
    part.len()
}

// The same of the ack list.
fn front_acks(count: usize, part: &[u32]) -> usize
    ensures { Front count result part.now }
{
    if count < part.len() {
        return count;
    }
    part.len()
}

// The same of the lengths.
fn front_lengths(count: usize, part: &[u16]) -> usize
    ensures { Front count result part.now }
{
    if count < part.len() {
        return count;
    }
    part.len()
}

// The bench after an opening.
fn after_open(bench: Bench, done: value_calls::Answered) -> Answered
    ensures { result ≡ record { answer = done.answer; bench = after_open bench done.answer done.link } }
{
    let answer = done.answer;
    match answer {
        Ok(()) => Answered {
            answer: Ok(()),
            bench: bench.with_opened(done.link),
        },
        Err(r) => Answered {
            answer: Err(r),
            bench: bench.with_link(done.link),
        },
    }
}

// The bench after a send.
fn after_send(bench: Bench, done: value_calls::Answered) -> Answered
    ensures { result ≡ record { answer = done.answer; bench = after bench done.link bench.table } }
{
    let answer = done.answer;
    Answered {
        answer,
        bench: bench.with_link(done.link),
    }
}

// The bench after taking in.
fn after_input(bench: Bench, done: TakenIn) -> Answered
    ensures { result ≡ record { answer = done.answer; bench = after bench done.link done.table } }
{
    let table = done.table;
    let answer = done.answer;
    Answered {
        answer,
        bench: bench.with_table(done.link, table),
    }
}

// The bench after a flush.
fn after_flush(bench: Bench, done: FlushedOut) -> Counted
    ensures { result ≡ record { answer = done.answer; bench = after bench done.link done.table } }
{
    let table = done.table;
    let answer = done.answer;
    Counted {
        answer,
        bench: bench.with_table(done.link, table),
    }
}

// The bench after an update.
fn after_update(bench: Bench, done: UpdatedOut) -> Updated
    ensures { result ≡ record { answer = done.answer; bench = after bench done.link done.table } }
{
    let table = done.table;
    let answer = done.answer;
    Updated {
        answer,
        bench: bench.with_table(done.link, table),
    }
}

// The bench after a read.
fn after_read(bench: Bench, done: value_calls::Counted) -> Counted
    ensures { result ≡ record { answer = done.answer; bench = after bench done.link bench.table } }
{
    let answer = done.answer;
    Counted {
        answer,
        bench: bench.with_link(done.link),
    }
}

pub fn open(
    bench: Bench,
    settings: Settings,
    send_pool: &[u8],
    receive_pool: &[u8],
    acks: &[u32],
) -> Answered
    ensures { BenchOpens settings bench send_pool.now receive_pool.now acks.now result }
{
    let s = front(bench.lent.send, send_pool);
    let r = front(bench.lent.receive, receive_pool);
    let a = front_acks(bench.lent.acks, acks);
    let table = bench.table;
    let done = value_calls::open(
        bench.link,
        settings,
        &send_pool[..s],
        &receive_pool[..r],
        table,
        bench.lent.records,
        &acks[..a],
    );
    after_open(bench, done)
}

pub fn send(
    bench: Bench,
    send_pool: &mut [u8],
    receive_pool: &[u8],
    acks: &[u32],
    message: &[u8],
) -> Answered
    ensures { BenchSends message.now bench send_pool.old receive_pool.now acks.now result
        send_pool.new }
{
    let s = front(bench.lent.send, send_pool);
    let r = front(bench.lent.receive, receive_pool);
    let a = front_acks(bench.lent.acks, acks);
    let table = bench.table;
    let done = value_calls::send(
        bench.link,
        &mut send_pool[..s],
        &receive_pool[..r],
        table,
        bench.lent.records,
        &acks[..a],
        message,
    );
    after_send(bench, done)
}

pub fn input(
    bench: Bench,
    send_pool: &[u8],
    receive_pool: &mut [u8],
    acks: &mut [u32],
    datagram: &[u8],
) -> Answered
    ensures { BenchTakesIn datagram.now bench send_pool.now receive_pool.old acks.old
        result receive_pool.new acks.new }
{
    let s = front(bench.lent.send, send_pool);
    let r = front(bench.lent.receive, receive_pool);
    let a = front_acks(bench.lent.acks, acks);
    let table = bench.table;
    let done = value_calls::input(
        bench.link,
        &send_pool[..s],
        &mut receive_pool[..r],
        table,
        bench.lent.records,
        &mut acks[..a],
        datagram,
    );
    after_input(bench, done)
}

pub fn flush(
    bench: Bench,
    send_pool: &[u8],
    receive_pool: &[u8],
    acks: &[u32],
    t: u32,
    output: &mut [u8],
    lengths: &mut [u16],
) -> Counted
    ensures { BenchFlushes t bench send_pool.now receive_pool.now acks.now output.old
        lengths.old result output.new lengths.new }
{
    let s = front(bench.lent.send, send_pool);
    let r = front(bench.lent.receive, receive_pool);
    let a = front_acks(bench.lent.acks, acks);
    let o = front(bench.lent.output, output);
    let l = front_lengths(bench.lent.lengths, lengths);
    let table = bench.table;
    let done = value_calls::flush(
        bench.link,
        &send_pool[..s],
        &receive_pool[..r],
        table,
        bench.lent.records,
        &acks[..a],
        t,
        &mut output[..o],
        &mut lengths[..l],
    );
    after_flush(bench, done)
}

pub fn update(
    bench: Bench,
    send_pool: &[u8],
    receive_pool: &[u8],
    acks: &[u32],
    t: u32,
    output: &mut [u8],
    lengths: &mut [u16],
) -> Updated
    ensures { BenchUpdates t bench send_pool.now receive_pool.now acks.now
        output.old lengths.old result output.new lengths.new }
{
    let s = front(bench.lent.send, send_pool);
    let r = front(bench.lent.receive, receive_pool);
    let a = front_acks(bench.lent.acks, acks);
    let o = front(bench.lent.output, output);
    let l = front_lengths(bench.lent.lengths, lengths);
    let table = bench.table;
    let done = value_calls::update(
        bench.link,
        &send_pool[..s],
        &receive_pool[..r],
        table,
        bench.lent.records,
        &acks[..a],
        t,
        &mut output[..o],
        &mut lengths[..l],
    );
    after_update(bench, done)
}

// Reads into a buffer of `room` bytes.
pub fn read(
    bench: Bench,
    send_pool: &[u8],
    receive_pool: &[u8],
    acks: &[u32],
    room: usize,
    buffer: &mut [u8],
) -> Counted
    ensures { BenchReads bench send_pool.now receive_pool.now acks.now room
        buffer.old result buffer.new }
{
    let s = front(bench.lent.send, send_pool);
    let r = front(bench.lent.receive, receive_pool);
    let a = front_acks(bench.lent.acks, acks);
    let b = front(room, buffer);
    let table = bench.table;
    let done = value_calls::read(
        bench.link,
        &send_pool[..s],
        &receive_pool[..r],
        table,
        bench.lent.records,
        &acks[..a],
        &mut buffer[..b],
    );
    after_read(bench, done)
}

pub fn size(bench: Bench, send_pool: &[u8], receive_pool: &[u8], acks: &[u32]) -> Answer<usize>
    ensures { BenchTells bench send_pool.now receive_pool.now acks.now result }
{
    let s = front(bench.lent.send, send_pool);
    let r = front(bench.lent.receive, receive_pool);
    let a = front_acks(bench.lent.acks, acks);
    let table = bench.table;
    value_calls::size(
        bench.link,
        &send_pool[..s],
        &receive_pool[..r],
        table,
        bench.lent.records,
        &acks[..a],
    )
}

pub fn check(
    bench: Bench,
    send_pool: &[u8],
    receive_pool: &[u8],
    acks: &[u32],
    t: u32,
) -> Answer<u32>
    ensures { BenchChecks t bench send_pool.now receive_pool.now acks.now result }
{
    let s = front(bench.lent.send, send_pool);
    let r = front(bench.lent.receive, receive_pool);
    let a = front_acks(bench.lent.acks, acks);
    let table = bench.table;
    value_calls::check(
        bench.link,
        &send_pool[..s],
        &receive_pool[..r],
        table,
        bench.lent.records,
        &acks[..a],
        t,
    )
}

// The part of the receive pool that showing gives.
pub fn show<'a>(bench: Bench, send_pool: &[u8], receive_pool: &'a [u8], acks: &[u32]) -> &'a [u8]
    ensures { BenchShows bench send_pool.now receive_pool.now acks.now result.now }
{
    let s = front(bench.lent.send, send_pool);
    let r = front(bench.lent.receive, receive_pool);
    let a = front_acks(bench.lent.acks, acks);
    let table = bench.table;
    value_calls::show(
        bench.link,
        &send_pool[..s],
        &receive_pool[..r],
        table,
        bench.lent.records,
        &acks[..a],
    )
}
