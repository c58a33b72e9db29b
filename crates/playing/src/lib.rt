// What each command of a script does, and its answer as text.
#![tactic(auto)]

ghost use Rattle.std.specs.Prelude.{◌≡◌, min, take, set, ◌++◌, Ok};
ghost use Rattle.notation.specs.Ascii.{ascii};
ghost use Rattle.transcript.specs.Lines.{bytes_line, refusal_line, answer_line, count_line, datagram_lines, state_line, held_line};
ghost use Rattle.bench_calls.specs.BenchPromises.{after};
ghost use Rattle.playing.specs.Plays.{PlaysUpdate, PlaysCheck, Says, still, NoCommand, SaysOk, PlaysOpen, PlaysSend};
ghost use Rattle.playing.specs.Plays.{PlaysInput, PlaysFlush, PlaysRead, PlaysSize, PlaysShow, PlaysJump, PlaysLend};
ghost use Rattle.playing.specs.Plays.{PlaysPoke, PlaysHold, PlaysTool, PlaysUnopened, PlaysOnLink, settings_of, Plays};
ghost use Rattle.playing.specs.Plays.{PlaysLine};

use bench::Bench;
use bench_calls::Answered;
use notation::put;
use protocol::{Protocol, Refusal, Settings};
use script::Command;
use timing::Record;
use transcript::link;

// The bench after a command, and the length of its answer.
#[derive(Clone, Copy)]
pub struct Played {
    pub bench: Bench,
    pub len: usize,
}

// The command of the line between `from` and `end`.
pub fn line_of(script: &[u8], from: usize, end: usize, bytes: &mut [u8]) -> Option<Command>
    ensures { PlaysLine script.now from end bytes.old result bytes.new }
{
    if from <= end && end < script.len() {
        return script::parse(&script[from..end], bytes);
    }
    None
}

// A setting that is too large for its width is out of its range all the same.
fn settings_of(
    conv: u32,
    mtu: u32,
    mode: u32,
    interval: u32,
    threshold: u32,
    stream: u32,
    congestion: u32,
) -> Settings
    ensures { result ≡ settings_of conv mtu mode interval threshold stream congestion }
{
    Protocol::settings(
        conv,
        mtu.min(65535) as u16,
        mode.min(255) as u8,
        interval.min(65535) as u16,
        threshold.min(255) as u8,
        stream.min(255) as u8,
        congestion.min(255) as u8,
    )
}

// A bench that is as it was, but for having had a command.
fn unchanged(bench: Bench, len: usize) -> Played
    ensures { result ≡ record { bench = still bench; len = len } }
{
    Played {
        bench: bench.with_link(bench.link),
        len,
    }
}

fn malformed(bench: Bench, text: &mut [u8]) -> Played
    ensures { NoCommand bench text.old result text.new }
{
    let len = put::bytes(text, 0, b"malformed\n");
    Played { bench, len }
}

fn answered(done: Answered, text: &mut [u8]) -> Played
    ensures { Says done.bench (answer_line done.answer) text.old result text.new }
{
    let answer = done.answer;
    let after = done.bench;
    let len = transcript::answer(text, 0, answer);
    Played { bench: after, len }
}

fn open(
    bench: Bench,
    settings: Settings,
    send_pool: &[u8],
    receive_pool: &[u8],
    acks: &[u32],
    text: &mut [u8],
) -> Played
    ensures { PlaysOpen settings bench send_pool.now receive_pool.now acks.now
        text.old result text.new }
{
    let done = bench_calls::open(bench, settings, send_pool, receive_pool, acks);
    answered(done, text)
}

// The first `count` bytes of `bytes` are the message.
fn send(
    bench: Bench,
    send_pool: &mut [u8],
    receive_pool: &[u8],
    acks: &[u32],
    bytes: &[u8],
    count: usize,
    text: &mut [u8],
) -> Played
    ensures { PlaysSend (take count bytes.now) bench send_pool.old receive_pool.now
        acks.now text.old result send_pool.new text.new }
{
    let n = bench_calls::front(count, bytes);
    let done = bench_calls::send(bench, send_pool, receive_pool, acks, &bytes[..n]);
    answered(done, text)
}

// The first `count` bytes of `bytes` are the datagram.
fn input(
    bench: Bench,
    send_pool: &[u8],
    receive_pool: &mut [u8],
    acks: &mut [u32],
    bytes: &[u8],
    count: usize,
    text: &mut [u8],
) -> Played
    ensures { PlaysInput (take count bytes.now) bench send_pool.now receive_pool.old
        acks.old text.old result receive_pool.new acks.new text.new }
{
    let n = bench_calls::front(count, bytes);
    let done = bench_calls::input(bench, send_pool, receive_pool, acks, &bytes[..n]);
    answered(done, text)
}

// The datagrams of a flush, and their count.
fn flushed(bench: Bench, packed: &[u8], lengths: &[u16], n: usize, text: &mut [u8]) -> Played
    ensures { Says bench (datagram_lines packed.now (take n lengths.now) ++ count_line (Ok n))
        text.old result text.new }
{
    let at = transcript::datagrams(text, 0, packed, lengths, n);
    let len = transcript::count(text, at, Ok(n));
    Played { bench, len }
}

fn refused(bench: Bench, refusal: Refusal, text: &mut [u8]) -> Played
    ensures { Says bench (refusal_line refusal) text.old result text.new }
{
    let len = transcript::refused(text, 0, refusal);
    Played { bench, len }
}

fn flush(
    bench: Bench,
    send_pool: &[u8],
    receive_pool: &[u8],
    acks: &[u32],
    t: u32,
    text: &mut [u8],
) -> Played
    ensures { PlaysFlush t bench send_pool.now receive_pool.now acks.now text.old result
        text.new }
{
    let mut output = [0u8; Protocol::OUTPUT_LEAST];
    let mut lengths = [0u16; Protocol::LENGTHS_LEAST];
    let done = bench_calls::flush(
        bench,
        send_pool,
        receive_pool,
        acks,
        t,
        &mut output,
        &mut lengths,
    );
    let after = done.bench;
    let answer = done.answer;
    match answer {
        Ok(n) => flushed(after, &output, &lengths, n, text),
        Err(r) => refused(after, r, text),
    }
}

// An update that did not flush.
fn waited(bench: Bench, text: &mut [u8]) -> Played
    ensures { SaysOk bench text.old result text.new }
{
    let len = transcript::answer(text, 0, Ok(()));
    Played { bench, len }
}

fn update(
    bench: Bench,
    send_pool: &[u8],
    receive_pool: &[u8],
    acks: &[u32],
    t: u32,
    text: &mut [u8],
) -> Played
    ensures { PlaysUpdate t bench send_pool.now receive_pool.now acks.now
        text.old result text.new }
{
    let mut output = [0u8; Protocol::OUTPUT_LEAST];
    let mut lengths = [0u16; Protocol::LENGTHS_LEAST];
    let done = bench_calls::update(
        bench,
        send_pool,
        receive_pool,
        acks,
        t,
        &mut output,
        &mut lengths,
    );
    let after = done.bench;
    let answer = done.answer;
    match answer {
        Ok(None) => waited(after, text),
        Ok(Some(n)) => flushed(after, &output, &lengths, n, text),
        Err(r) => refused(after, r, text),
    }
}

fn check(
    bench: Bench,
    send_pool: &[u8],
    receive_pool: &[u8],
    acks: &[u32],
    t: u32,
    text: &mut [u8],
) -> Played
    ensures { PlaysCheck t bench send_pool.now receive_pool.now acks.now
        text.old result text.new }
{
    let answer = bench_calls::check(bench, send_pool, receive_pool, acks, t);
    let len = transcript::time(text, 0, answer);
    unchanged(bench, len)
}

// The message that was read: the first `count` bytes of `bytes`.
fn message(bench: Bench, bytes: &[u8], count: usize, text: &mut [u8]) -> Played
    ensures { Says bench (bytes_line (ascii "message ") (take count bytes.now))
        text.old result text.new }
{
    let n = bench_calls::front(count, bytes);
    let len = transcript::bytes_line(text, 0, b"message ", &bytes[..n]);
    Played { bench, len }
}

fn read(
    bench: Bench,
    send_pool: &[u8],
    receive_pool: &[u8],
    acks: &[u32],
    room: u32,
    text: &mut [u8],
) -> Played
    ensures { PlaysRead room bench send_pool.now receive_pool.now acks.now text.old result
        text.new }
{
    let mut buffer = [0u8; script::ROOM_MOST];
    let done = bench_calls::read(
        bench,
        send_pool,
        receive_pool,
        acks,
        room as usize,
        &mut buffer,
    );
    let after = done.bench;
    let answer = done.answer;
    match answer {
        Ok(n) => message(after, &buffer, n, text),
        Err(r) => refused(after, r, text),
    }
}

fn size(
    bench: Bench,
    send_pool: &[u8],
    receive_pool: &[u8],
    acks: &[u32],
    text: &mut [u8],
) -> Played
    ensures { PlaysSize bench send_pool.now receive_pool.now acks.now text.old result
        text.new }
{
    let answer = bench_calls::size(bench, send_pool, receive_pool, acks);
    let len = transcript::count(text, 0, answer);
    unchanged(bench, len)
}

fn show(
    bench: Bench,
    send_pool: &[u8],
    receive_pool: &[u8],
    acks: &[u32],
    text: &mut [u8],
) -> Played
    ensures { PlaysShow bench send_pool.now receive_pool.now acks.now text.old result
        text.new }
{
    let part = bench_calls::show(bench, send_pool, receive_pool, acks);
    let len = transcript::bytes_line(text, 0, b"part ", part);
    unchanged(bench, len)
}

fn ok(bench: Bench, text: &mut [u8]) -> Played
    ensures { SaysOk (still bench) text.old result text.new }
{
    let len = transcript::answer(text, 0, Ok(()));
    unchanged(bench, len)
}

fn state(bench: Bench, text: &mut [u8]) -> Played
    ensures { Says (still bench) (state_line bench.link) text.old result text.new }
{
    let len = link::state(text, 0, bench.link);
    unchanged(bench, len)
}

fn held(bench: Bench, text: &mut [u8]) -> Played
    ensures { Says (still bench) (held_line bench.link bench.table) text.old result text.new }
{
    let len = link::segments(text, 0, bench.link, &bench.table);
    unchanged(bench, len)
}

// Only right after an accepted opening.
fn jump(bench: Bench, snd: u32, rcv: u32, text: &mut [u8]) -> Played
    ensures { PlaysJump snd rcv bench text.old result text.new }
{
    if bench.fresh {
        ok(bench.with_link(bench::jump(bench.link, snd, rcv)), text)
    } else {
        malformed(bench, text)
    }
}

fn lend(mut bench: Bench, part: u32, count: u32, text: &mut [u8]) -> Played
    ensures { PlaysLend part count bench text.old result text.new }
{
    bench.lent = bench::lend(bench.lent, part, count);
    ok(bench, text)
}

fn poke(bench: Bench, field: u32, value: u32, text: &mut [u8]) -> Played
    ensures { PlaysPoke field value bench text.old result text.new }
{
    ok(
        bench.with_link(bench::poke::poke(bench.link, field, value)),
        text,
    )
}

// Only on a segment that is held.
fn hold(bench: Bench, list: u32, index: u32, field: u32, value: u32, text: &mut [u8]) -> Played
    ensures { PlaysHold list index field value bench text.old result text.new }
{
    if bench::poke::is_held(bench.link, list, index) {
        ok(
            bench.with_link(bench::poke::hold(bench.link, list, index, field, value)),
            text,
        )
    } else {
        malformed(bench, text)
    }
}

fn rec(mut bench: Bench, slot: u32, record: Record, text: &mut [u8]) -> Played
    ensures { SaysOk (after bench bench.link (set bench.table slot «record»)) text.old result text.new }
{
    bench::replace(&mut bench.table, slot as usize, record);
    ok(bench, text)
}

// The commands that look at the bench, or change it by hand.
fn tool(bench: Bench, command: Command, text: &mut [u8]) -> Played
    ensures { PlaysTool command bench text.old result text.new }
{
    match command {
        Command::State => state(bench, text),
        Command::Held => held(bench, text),
        Command::Jump { snd, rcv } => jump(bench, snd, rcv, text),
        Command::Lend { part, count } => lend(bench, part, count, text),
        Command::Poke { field, value } => poke(bench, field, value, text),
        Command::Hold {
            list,
            index,
            field,
            value,
        } => hold(bench, list, index, field, value, text),
        Command::Rec {
            slot,
            number,
            due,
            timeout,
            skips,
        } => {
            let record = Record {
                number,
                due,
                timeout,
                skips,
            };
            rec(bench, slot, record, text)
        }
        _ => malformed(bench, text),
    }
}

// A command before any accepted opening.
fn unopened(bench: Bench, command: Command, text: &mut [u8]) -> Played
    ensures { PlaysUnopened command bench text.old result text.new }
{
    match command {
        Command::Show => {
            let len = put::bytes(text, 0, b"part -\n");
            Played { bench, len }
        }
        _ => refused(bench, Refusal::InvalidBlock, text),
    }
}

// A command on a link that has been opened.
fn on_link(
    bench: Bench,
    command: Command,
    send_pool: &mut [u8],
    receive_pool: &mut [u8],
    acks: &mut [u32],
    bytes: &[u8],
    text: &mut [u8],
) -> Played
    ensures { PlaysOnLink command bench send_pool.old receive_pool.old acks.old
        bytes.now text.old result send_pool.new receive_pool.new acks.new
        text.new }
{
    match command {
        Command::Send(n) => send(bench, send_pool, receive_pool, acks, bytes, n, text),
        Command::Input(n) => input(bench, send_pool, receive_pool, acks, bytes, n, text),
        Command::Flush(t) => flush(bench, send_pool, receive_pool, acks, t, text),
        Command::Update(t) => update(bench, send_pool, receive_pool, acks, t, text),
        Command::Check(t) => check(bench, send_pool, receive_pool, acks, t, text),
        Command::Read(room) => read(bench, send_pool, receive_pool, acks, room, text),
        Command::Show => show(bench, send_pool, receive_pool, acks, text),
        Command::Size => size(bench, send_pool, receive_pool, acks, text),
        _ => tool(bench, command, text),
    }
}

// Plays a command: the bench after it, and the length of the answer, which stands at the start of `text`.
pub fn play(
    bench: Bench,
    command: Option<Command>,
    send_pool: &mut [u8],
    receive_pool: &mut [u8],
    acks: &mut [u32],
    bytes: &[u8],
    text: &mut [u8],
) -> Played
    ensures { Plays command bench send_pool.old receive_pool.old acks.old bytes.now
        text.old result send_pool.new receive_pool.new acks.new text.new }
{
    let Some(command) = command else {
        return malformed(bench, text);
    };
    match command {
        Command::Open {
            conv,
            mtu,
            mode,
            interval,
            threshold,
            stream,
            congestion,
        } => {
            let settings = settings_of(conv, mtu, mode, interval, threshold, stream, congestion);
            open(bench, settings, send_pool, receive_pool, acks, text)
        }
        _ if bench.opened => on_link(bench, command, send_pool, receive_pool, acks, bytes, text),
        _ => unopened(bench, command, text),
    }
}
