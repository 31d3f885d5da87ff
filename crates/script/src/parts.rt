// What a run is made of: the loop over the lines, its limit, and its result.
ghost use Rattle.std.specs.Prelude.{◌≡◌, ◌+◌, ◌*◌, ◌^◌, ◌<◌, min};
ghost use Rattle.dispatch.specs.Step.{state_of};
ghost use Rattle.dispatch.specs.Parts.{SameTables};
ghost use Rattle.script.specs.Script.{most_bytes};
ghost use Rattle.script.specs.Parts.{Runnable, Ends, stop_no};

use crate::MOST_BYTES;
use dispatch::Desk;
use index::Refusal;
use obeying::parts::answer_line;
use reply::parts::answer;
use text::parts::line_end;

// How a run ended: what stopped it before its script's end, if anything did, and the bytes written.
#[derive(Clone, Copy)]
pub struct Ended {
    pub stopped: Option<Refusal>,
    pub bytes: usize,
}

impl Ended {
    // The answer number: 0 where the whole script was run.
    pub fn number(self) -> u32
        ensures { result ≡ stop_no self.stopped }
    {
        match self.stopped {
            Some(why) => why.number(),
            None => 0,
        }
    }
}

// Obeys line after line, and writes their answers to the front of the output. The first that ends past `limit` stops it.
pub fn run_lines(script: &[u8], out: &mut [u8], limit: usize, desk: &mut Desk) -> Ended
    requires { Runnable script.now out.old limit desk.old.items.now }
    ensures does { Ends (state_of desk.old) (state_of desk.new) limit script.now out.old out.new result }
    ensures same { SameTables desk.old desk.new }
{
    let mut at: usize = 0;
    let mut to: usize = 0;
    // From line to line, each where the one before it ended: std's `split` would have one line more behind a last newline, and
    // `split_inclusive` would leave each line its newline, to be cut off again.
    while at < script.len() {
        let end = line_end(script, at);
        let reply = answer_line(&script[at..end], desk);
        let Some(stop) = answer(out, to, limit, reply, &mut *desk.items) else {
            return Ended {
                stopped: Some(Refusal::Short),
                bytes: to,
            };
        };
        to = stop;
        at = end + 1;
    }
    Ended {
        stopped: None,
        bytes: to,
    }
}

// The bytes of an output that a run may write.
pub fn limit_of(room: usize) -> usize
    ensures { result ≡ min room most_bytes }
{
    room.min(MOST_BYTES)
}

// The answer number times 2^32, plus the bytes written: two numbers in one, as C gets them.
pub fn pack(number: u32, bytes: usize) -> u64
    requires { bytes < 2 ^ 32 }
    ensures { result ≡ number * 2 ^ 32 + bytes }
{
    (number as u64) * 4294967296 + (bytes as u64)
}
