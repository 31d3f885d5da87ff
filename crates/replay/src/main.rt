// The proved run, asked what graph.rs was asked: `stdin` is a list of scripts, `stdout` what the Rust answered to each. The oracle's
// program `record` wrote both (oracle/src/replay.rs).
//
// A number of the list is five digits and the space or newline behind them. The list begins with how many scripts there are. Each has
// three numbers before it, its place, its length and that of its buffer, and a newline behind it. Its answer begins with a line of its place, the
// answer number, the bytes written, and how many bytes past these were touched; then these bytes follow.
#![tactic(auto)]

ghost use Rattle.std.specs.Prelude.{◌<◌};

use printer::print_number;
use script::net_run;
use std::io;
use std::io::{ErrorKind, Read, Stdout};

// Its tables are arrays: no program has a heap.
// Room for the longest script of the list, and more than for its longest buffer: what lies behind a buffer is not to be touched either.
const SCRIPT_ROOM: usize = 16385;

const OUT_ROOM: usize = 21504;

// What each byte holds before a run. No answer has such a byte.
const MARK: u8 = 170;

// '0' to '9' are 48 to 57. The list is the oracle's own, so no byte needs an Option as std's `to_digit` answers it.
fn digit(x: u8) -> usize
    ensures { result < 16 }
{
    x as usize % 16
}

// Fills the bytes from the input. Where it ends, those behind its end stay as they were.
fn fill<R: Read>(input: &mut R, bytes: &mut [u8]) -> io::Result<()> {
    match input.read_exact(bytes) {
        Err(e) if e.kind() == ErrorKind::UnexpectedEof => Ok(()),
        filled => filled,
    }
}

fn read_number<R: Read>(input: &mut R) -> io::Result<usize> {
    let mut text = [0u8; 6];
    fill(input, &mut text)?;
    Ok(
        10000 * digit(text[0])
            + 1000 * digit(text[1])
            + 100 * digit(text[2])
            + 10 * digit(text[3])
            + digit(text[4]),
    )
}

fn print_with(stdout: &Stdout, x: usize, behind: &[u8]) -> io::Result<()> {
    print_number(stdout, x as u64);
    stdout.write_all(behind)
}

// How many bytes from `written` on have lost their mark. A `for` over these bytes: `skip`, `filter` and `count` took half as long again.
fn touched(out: &[u8], written: usize) -> usize {
    let mut count: usize = 0;
    for b in &out[written.min(out.len())..] {
        if *b != MARK {
            count += 1;
        }
    }
    count
}

fn run(script: &[u8], out: &mut [u8], room: usize) -> u64 {
    let lent = room.min(out.len());
    net_run(script, &mut out[..lent])
}

fn answer(stdout: &Stdout, place: usize, script: &[u8], room: usize) -> io::Result<()> {
    let mut out = [MARK; OUT_ROOM];
    let told = run(script, &mut out, room);
    let written = (told % 4294967296) as usize;
    print_with(stdout, place, b": ")?;
    print_with(stdout, (told / 4294967296) as usize, b" ")?;
    print_with(stdout, written, b" ")?;
    print_with(stdout, touched(&out, written), b"\n")?;
    let shown = written.min(out.len());
    stdout.write_all(&out[..shown])
}

fn read_bytes<R: Read>(input: &mut R, bytes: &mut [u8], len: usize) -> io::Result<()> {
    let lent = len.min(bytes.len());
    fill(input, &mut bytes[..lent])
}

// The next script of the list, and its answer.
fn ask<R: Read>(stdout: &Stdout, input: &mut R) -> io::Result<()> {
    let place = read_number(input)?;
    let len = read_number(input)?;
    let room = read_number(input)?;
    let mut script = [0u8; SCRIPT_ROOM];
    read_bytes(input, &mut script, len)?;
    let mut newline = [0u8; 1];
    read_bytes(input, &mut newline, 1)?;
    let lent = len.min(script.len());
    answer(stdout, place, &script[..lent], room)
}

fn main(rt: HostRuntime) -> io::Result<()> {
    let mut input = rt.stdin();
    let stdout = rt.stdout();
    let scripts = read_number(&mut input)?;
    for _ in 0..scripts {
        ask(&stdout, &mut input)?;
    }
    Ok(())
}
