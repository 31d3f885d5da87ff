// The run of a whole script: script bytes in, answer bytes out.
#![tactic(auto)]

ghost use Rattle.std.specs.Prelude.{◌≡◌, length};
ghost use Rattle.script.specs.Script.{run, packed};

use dispatch::Desk;
use index::{EdgeIndex, NodeIndex, Refusal};
use parts::{limit_of, pack, run_lines};
use tables::parts::{EDGE_CELLS, NODE_CELLS};

pub mod parts;

// A script has at most so many bytes, and so have its answers.
pub const MOST_BYTES: usize = 16384;

// The rows of a run's network, and the items of its output tables: arrays, since the project has no heap.
pub const NODE_ROOM: usize = 256;

pub const EDGE_ROOM: usize = 1024;

pub const ITEM_ROOM: usize = 2048;

// Runs a script from an empty network and writes its answer lines: the answer number times 2^32, plus the bytes written, in one number as C
// gets it (`script_c`).
pub fn net_run(script: &[u8], out: &mut [u8]) -> u64
    ensures { (result, out.new) ≡ packed (run script.now (length out.old)) out.old }
{
    if MOST_BYTES < script.len() {
        return pack(Refusal::Tables.number(), 0);
    }
    let limit = limit_of(out.len());
    let mut weights = [0i32; NODE_ROOM];
    let mut heads = [EdgeIndex::END.0; NODE_CELLS * NODE_ROOM];
    let mut registers = [0u32; EDGE_ROOM];
    let mut links = [EdgeIndex::END.0; EDGE_CELLS * EDGE_ROOM];
    let mut ends = [NodeIndex::END.0; EDGE_CELLS * EDGE_ROOM];
    let mut items = [0u32; ITEM_ROOM];
    let mut sources = [0u32; ITEM_ROOM];
    let mut targets = [0u32; ITEM_ROOM];
    let mut desk = Desk {
        weights: &mut weights,
        heads: &mut heads,
        registers: &mut registers,
        links: &mut links,
        ends: &mut ends,
        n: 0,
        m: 0,
        items: &mut items,
        sources: &mut sources,
        targets: &mut targets,
    };
    let ended = run_lines(script, out, limit, &mut desk);
    pack(ended.number(), ended.bytes)
}
