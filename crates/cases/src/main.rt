// The order's list 'Tried by hand', run: what has to come out was worked out there. `stdin` is a script: W 0 and D 0 on an empty network, then
// network A, built anew (Z) where a case has changed it. Behind a D, the sums tell which node moved. The script is obeyed in tables of three node
// rows and five edge rows, so that the last edge row is soon taken. Its answers are printed, then the edge rows that its last line, X 0 on A,
// has left; then the image of one node.
#![tactic(auto)]

ghost use Rattle.std.specs.Prelude.{◌≤◌, IfOk, length};

use dispatch::Desk;
use image::{image_read, image_write};
use index::{EdgeIndex, NodeIndex, Refusal};
use script::parts::run_lines;
use std::io;
use std::io::{Read, Stdout};
use tables::Network;
use tables::parts::{EDGE_CELLS, NODE_CELLS};

mod show;

// Reads to the end, or until `script` is full, and answers how many bytes. A pipe gives it in pieces. As in `netrun`, but no program lends
// another a function, and a library for one loop would be no plainer.
fn read_script<R: Read>(input: &mut R, script: &mut [u8]) -> io::Result<usize>
    ensures { IfOk result (λ n. n ≤ length script.new) }
{
    let mut at: usize = 0;
    while at < script.len() {
        let more = input.read(&mut script[at..])?;
        if more == 0 {
            break;
        }
        at += more;
    }
    Ok(at)
}

// Obeys a script in an empty network, in arrays: no program has a heap. It has no G, which alone would need tables of sources and of targets.
fn run(stdout: &Stdout, script: &[u8]) -> io::Result<()>
    requires { length script.now ≤ 1024 }
{
    let mut out = [0u8; 1024];
    let mut weights = [0i32; 3];
    let mut heads = [EdgeIndex::END.0; NODE_CELLS * 3];
    let mut registers = [0u32; 5];
    let mut links = [EdgeIndex::END.0; EDGE_CELLS * 5];
    let mut ends = [NodeIndex::END.0; EDGE_CELLS * 5];
    let mut items = [0u32; 8];
    let mut desk = Desk {
        weights: &mut weights,
        heads: &mut heads,
        registers: &mut registers,
        links: &mut links,
        ends: &mut ends,
        n: 0,
        m: 0,
        items: &mut items,
        sources: &mut [],
        targets: &mut [],
    };
    let ended = run_lines(script, &mut out, 1024, &mut desk);
    answers(stdout, &out, ended.bytes)?;
    edge_rows(stdout, &registers, &links, &ends)
}

fn answers(stdout: &Stdout, out: &[u8], bytes: usize) -> io::Result<()> {
    let written = bytes.min(out.len());
    show::text(stdout, &out[..written])
}

// Those past the last in use are vacant.
fn edge_rows(stdout: &Stdout, registers: &[u32], links: &[u32], ends: &[u32]) -> io::Result<()> {
    show::cells(stdout, b"weights:", registers)?;
    show::cells(stdout, b"links:", links)?;
    show::cells(stdout, b"ends:", ends)
}

// One node weighing -3, no edges: its image, and what a read of 24 bytes of it is refused with.
fn one_node(stdout: &Stdout) -> io::Result<()> {
    let mut bytes = [0u8; 25];
    let net = Network {
        weights: &[-3],
        heads: &[EdgeIndex::END.0; NODE_CELLS],
        registers: &[],
        links: &[],
        ends: &[],
        n: 1,
        m: 0,
    };
    let _ = image_write(net, &mut bytes);
    show::bytes(stdout, b"image:", &bytes)?;
    let short = bytes.len().min(24);
    read(stdout, &bytes[..short])
}

fn read(stdout: &Stdout, bytes: &[u8]) -> io::Result<()> {
    let mut weights = [0i32; 1];
    let mut heads = [EdgeIndex::END.0; NODE_CELLS];
    let mut n = 0;
    let mut m = 0;
    let answer = image_read(
        &mut weights,
        &mut heads,
        &mut [],
        &mut [],
        &mut [],
        &mut n,
        &mut m,
        bytes,
    );
    told(stdout, answer)
}

fn told(stdout: &Stdout, answer: Result<(), Refusal>) -> io::Result<()> {
    let Err(why) = answer else {
        return Ok(());
    };
    show::cells(stdout, b"24 bytes of it, refused:", &[why.number()])
}

fn main(rt: HostRuntime) -> io::Result<()> {
    let mut script = [0u8; 1024];
    let read = read_script(&mut rt.stdin(), &mut script)?;
    let stdout = rt.stdout();
    run(&stdout, &script[..read])?;
    one_node(&stdout)
}
