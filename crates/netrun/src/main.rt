// Answers the script on standard input: its answer lines, then `! 7` where one of them did not fit; alone `! 1` where the
// script is too long. Which bytes these are is proved (`telling`), and here that a reader is read and a writer written so, where
// these tell what they have. What the system makes of standard input and output no contract can say.
#![tactic(auto)]

ghost use Rattle.std.specs.Prelude.{◌≤◌, ◌<◌, IfOk, IfSome, OnOk, length, take};
ghost use Rattle.std.specs.Io.{ReadsAtMost};
ghost use Rattle.std.specs.Io.KnownBytes.{Appends, Consumes, IsAtEnd};
ghost use Rattle.telling.specs.Telling.{told_run};

use script::MOST_BYTES;
use std::io;
use std::io::{Read, Write};
use telling::parts::{TOLD_BYTES, tell_run};

// Its tables are arrays: no program has a heap.
// One byte more than a script may have: where it is read too, the script is too long.
const ROOM: usize = MOST_BYTES + 1;

// Why nothing was answered, or not all.
#[derive(Clone, Copy)]
enum Failed {
    Reading,
    Writing,
}

// Reads to the end, or until `script` is full, and answers how many bytes. A pipe gives it in pieces.
fn read_script<R: Read>(input: &mut R, script: &mut [u8]) -> io::Result<usize>
    ensures within { ReadsAtMost result script.new }
    ensures bytes { IfOk result (λ n. Consumes (R.remaining input.old) (R.remaining input.new) (take n script.new)) }
    ensures whole { IfOk result (λ n. n < length script.new → IsAtEnd (R.remaining input.new)) }
{
    let mut at: usize = 0;
    while at < script.len() {
        let more = input.read(&mut script[at..])?;
        if more == 0 {
            return Ok(at);
        }
        at += more;
    }
    Ok(at)
}

// Reads on where the script is too long, and answers whether there was more.
fn read_more<R: Read>(input: &mut R) -> bool {
    let mut rest = [0u8; 4096];
    input.read(&mut rest).is_ok_and(|more| 0 < more)
}

// Reads the rest of a script that is too long, so that whoever writes it can end. Nothing says that an input ends, so the
// turns are numbered, up to a number that no run reaches.
fn read_rest<R: Read>(input: &mut R) {
    for _ in 0..u64::MAX {
        if !read_more(input) {
            break;
        }
    }
}

// Reads a script, and writes what is printed of its run. By match, and not by `map_err`: tried, and the facts of its closures are not found.
fn answer<R: Read, W: Write>(input: &mut R, out: &mut W) -> Result<(), Failed>
    ensures { OnOk result (IfSome (R.remaining input.old) (λ script. Appends (W.contents out.old) (W.contents out.new) (told_run script))) }
{
    let mut script = [0u8; ROOM];
    let Ok(got) = read_script(input, &mut script) else {
        return Err(Failed::Reading);
    };
    if got == ROOM {
        read_rest(input);
    }
    let mut told = [0u8; TOLD_BYTES];
    let written = tell_run(&script[..got], &mut told);
    match out.write_all(&told[..written]) {
        Ok(()) => Ok(()),
        Err(_) => Err(Failed::Writing),
    }
}

// Tells on standard error what went wrong. Where that fails too, nobody is left to be told.
fn complain(rt: &impl Eprint, what: &str) {
    let _ = rt.eprintln(what);
}

fn main(rt: HostRuntime) {
    match answer(&mut rt.stdin(), &mut io::writer(&rt)) {
        Ok(()) => {}
        Err(Failed::Reading) => complain(&rt, "netrun: standard input cannot be read"),
        Err(Failed::Writing) => complain(&rt, "netrun: standard output cannot be written"),
    }
}
