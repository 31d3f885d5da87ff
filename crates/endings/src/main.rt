// The two endings of a run that is not done, as `netrun` prints them: the last bytes of what is printed of a script whose answer lines do not
// all fit, and of one that is too long. Every line of these scripts is empty, and is told `? 10`.
#![tactic(auto)]

ghost use Rattle.std.specs.Prelude.{◌≤◌};

use script::MOST_BYTES;
use std::io;
use telling::parts::{TOLD_BYTES, tell_run};

// Its tables are arrays: no program has a heap.
// So many bytes are shown: the last answer line, and the ending.
const SHOWN: usize = 9;

// Where the last of so many bytes begin that are shown.
fn last(len: usize) -> usize
    ensures { result ≤ len }
{
    len.saturating_sub(SHOWN)
}

fn show_last(rt: &impl Print, told: &[u8]) -> io::Result<()> {
    let from = last(told.len());
    rt.write_all(&told[from..])
}

fn show(rt: &impl Print, script: &[u8]) -> io::Result<()> {
    let mut out = [0u8; TOLD_BYTES];
    let written = tell_run(script, &mut out);
    show_last(rt, &out[..written])
}

fn main(rt: HostRuntime) -> io::Result<()> {
    let script = [b'\n'; MOST_BYTES + 1];
    show(&rt, &script[..MOST_BYTES])?;
    show(&rt, &script)
}
