// Plays a script of link calls on standard input, and writes the answers.
#![tactic(auto)]

ghost use Rattle.std.specs.Prelude.{◌≡◌, ◌+◌, ◌≤◌, length, drop};
ghost use Rattle.script.specs.Commands.{first_line};

use bench::Bench;
use notation::input::read_full;
use script::words::split_before;
use std::io;
use std::io::Print;

// The lent parts: 128 and 256 slots of 232 bytes, and 256 pairs.
const SEND_POOL: usize = 29696;

const RECEIVE_POOL: usize = 59392;

const ACKS: usize = 512;

// The bytes of a line's message or datagram, and the text of an answer.
const BYTES: usize = 32500;

const TEXT: usize = 140000;

// What the link and its commands are lent.
#[derive(Drop)]
struct Desk {
    send_pool: [u8; SEND_POOL],
    receive_pool: [u8; RECEIVE_POOL],
    acks: [u32; ACKS],
    bytes: [u8; BYTES],
    text: [u8; TEXT],
}

// Where the line that starts at `from` ends: its newline, or the end of the script.
fn line_end(script: &[u8], from: usize) -> usize
    requires { from ≤ length script.now }
    ensures { (result ≡ from + length (first_line (drop from script.now))) × (from ≤ result) × (result ≤ length script.now) }
{
    let (line, _) = split_before(&script[from..], b'\n');
    from + line.len()
}

// Plays the line between `from` and `end`, and writes its answer.
fn turn(
    rt: &impl Print,
    bench: Bench,
    script: &[u8],
    from: usize,
    end: usize,
    desk: &mut Desk,
) -> io::Result<Bench> {
    let command = playing::line_of(script, from, end, &mut desk.bytes);
    let played = playing::play(
        bench,
        command,
        &mut desk.send_pool,
        &mut desk.receive_pool,
        &mut desk.acks,
        &desk.bytes,
        &mut desk.text,
    );
    rt.write_all(notation::front(&desk.text, played.len))?;
    Ok(played.bench)
}

// Plays each line of a script in turn. A line whose newline is missing is malformed.
fn run(rt: &impl Print, script: &[u8]) -> io::Result<()>
    requires { length script.now ≤ 1048576 }
{
    let mut bench = Bench::new();
    let mut desk = Desk {
        send_pool: [0; SEND_POOL],
        receive_pool: [0; RECEIVE_POOL],
        acks: [0; ACKS],
        bytes: [0; BYTES],
        text: [0; TEXT],
    };
    let mut from = 0;
    while from < script.len() {
        let end = line_end(script, from);
        bench = turn(rt, bench, script, from, end, &mut desk)?;
        from = end + 1;
    }
    Ok(())
}

// Reads a script into `room`, which has one byte more than the longest script, and plays it.
fn start(rt: &HostRuntime, room: &mut [u8]) -> io::Result<()> {
    let n = read_full(&mut rt.stdin(), room)?;
    if script::SCRIPT_MOST < n {
        return rt.write_all(b"too long\n");
    }
    run(rt, &room[..n])
}

fn start_in(rt: &HostRuntime, room: &mut [u8; script::SCRIPT_MOST + 1]) -> io::Result<()> {
    start(rt, room)
}

fn main(rt: HostRuntime) -> io::Result<()> {
    let mut room = [0u8; script::SCRIPT_MOST + 1];
    start_in(&rt, &mut room)
}
