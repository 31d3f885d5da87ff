// One fault of each kind in each direction, in a network of two nodes and two edges, 0→1 and 1→0. A line has the answer
// number, then the rows read, or the direction (0 outgoing, 1 incoming) and the node of the first fault.
use crate::Tables;
use index::EdgeIndex;
use printer::print_number;
use sound::{Fault, check};
use std::io;
use std::io::Stdout;
use tables::Network;

const END: u32 = EdgeIndex::END.0;

// Each list has one edge: outgoing 0 and 1, incoming 1 and 0.
const HEADS: [u32; 4] = [0, 1, 1, 0];

const LINKS: [u32; 4] = [END, END, END, END];

const ENDS: [u32; 4] = [0, 1, 1, 0];

pub fn run(stdout: &Stdout) -> io::Result<()> {
    // Both directions read both edges.
    told(stdout, b"sound: ", of(HEADS, LINKS, ENDS))?;
    // 2 is not below m, and is not END.
    told(
        stdout,
        b"outgoing link past m: ",
        of([0, 1, 2, 0], LINKS, ENDS),
    )?;
    told(
        stdout,
        b"incoming link past m: ",
        of([0, 1, 1, 2], LINKS, ENDS),
    )?;
    // Edge 1 stands in node 1's outgoing list and has source 0; edge 0 in its incoming list and has target 0.
    told(
        stdout,
        b"outgoing wrong end: ",
        of(HEADS, LINKS, [0, 1, 0, 0]),
    )?;
    told(
        stdout,
        b"incoming wrong end: ",
        of(HEADS, LINKS, [0, 0, 1, 0]),
    )?;
    // An edge that leads to itself: the list does not end.
    told(
        stdout,
        b"outgoing endless: ",
        of(HEADS, [0, END, END, END], ENDS),
    )?;
    told(
        stdout,
        b"incoming endless: ",
        of(HEADS, [END, END, END, 1], ENDS),
    )?;
    // Every list ends, and one edge is in none: node n.
    told(
        stdout,
        b"outgoing unlisted: ",
        of([0, 1, END, 0], LINKS, ENDS),
    )?;
    told(
        stdout,
        b"incoming unlisted: ",
        of([0, 1, 1, END], LINKS, ENDS),
    )?;
    // The first fault is told: outgoing before incoming, and in node order.
    told(stdout, b"both directions: ", of([0, 2, 2, 0], LINKS, ENDS))?;
    told(stdout, b"both nodes: ", of([2, 1, 2, 0], LINKS, ENDS))
}

fn of(heads: [u32; 4], links: [u32; 4], ends: [u32; 4]) -> Tables {
    Tables { heads, links, ends }
}

fn told(stdout: &Stdout, label: &[u8], t: Tables) -> io::Result<()> {
    let net = Network {
        weights: &[0; 2],
        heads: &t.heads,
        registers: &[0; 2],
        links: &t.links,
        ends: &t.ends,
        n: 2,
        m: 2,
    };
    stdout.write_all(label)?;
    match check(net) {
        Ok(rows) => {
            print_number(stdout, 0);
            crate::count(stdout, rows)?;
        }
        Err(Fault::At(d, a)) => {
            print_number(stdout, 6);
            crate::number(stdout, d.number() as u64)?;
            crate::count(stdout, a.0)?;
        }
        Err(Fault::Refused(why)) => {
            print_number(stdout, why.number() as u64);
        }
    }
    stdout.write_all(b"\n")
}
