// What is printed of a run.
ghost use Rattle.std.specs.Prelude.{◌+◌, ◌≤◌, length};
ghost use Rattle.printing.specs.Parts.{Writes};
ghost use Rattle.telling.specs.Telling.{ending_of};
ghost use Rattle.telling.specs.Parts.{told_bytes, PrintsRun};

use printing::parts::{write_byte, write_field};
use script::{MOST_BYTES, net_run};

// Room for the answer lines of any run, and for its ending: `! 7` or `! 1`, and a newline.
pub const TOLD_BYTES: usize = MOST_BYTES + 4;

// Behind the answer lines, which end at `at`: nothing where the run was done, else a line of `!` and its answer number,
// which is printed as `net_run` tells it.
pub fn write_ending(out: &mut [u8], at: usize, number: u32) -> usize
    requires { at + length (ending_of number) ≤ length out.old }
    ensures { Writes out.old out.new at (ending_of number) result }
{
    if number == 0 {
        return at;
    }
    let why = write_byte(out, at, b'!');
    let newline = write_field(out, why, number as u64);
    write_byte(out, newline, b'\n')
}

// Runs a script, and writes all that is printed of it to the front of the output; how many bytes that is. `net_run` packs two numbers into
// one, as C gets it.
pub fn tell_run(script: &[u8], out: &mut [u8]) -> usize
    requires { told_bytes ≤ length out.old }
    ensures { PrintsRun script.now out.old out.new result }
{
    let told = net_run(script, out);
    let number = (told / 4294967296) as u32;
    let bytes = (told % 4294967296) as usize;
    write_ending(out, bytes, number)
}
