// The check, first on one fault of each kind (faults.rt), then on every small table: n and m up to 2, each link and end
// 0, 1, 2 or `END`. A line of these has n and m, how many networks there are, how many are accepted, the faults by direction
// and node, others (none), and a hash of all answers in turn. An independent check, oracle/tests/small_tables.rs, works out
// the same lines.
#![tactic(auto)]

ghost use Rattle.std.specs.Prelude.{◌<◌};

use index::{EdgeDirection, EdgeIndex};
use printer::print_number;
use sound::{Fault, check};
use std::io;
use std::io::Stdout;
use tables::Network;

mod faults;

const END: u32 = EdgeIndex::END.0;

// The tables with n nodes and m edges that have 2n cells of heads and 4m of links and ends: 4 to the power of that.
const NETWORKS: [u32; 9] = [1, 256, 65536, 16, 4096, 1048576, 256, 65536, 16777216];

#[derive(Clone, Copy)]
struct Tables {
    heads: [u32; 4],
    links: [u32; 4],
    ends: [u32; 4],
}

#[derive(Clone, Copy)]
struct Tally {
    counts: [u32; 8],
    hash: u64,
}

// A cell by the lowest digit of a code, base 4; one that is not in use is vacant.
fn cell(code: u32, used: bool) -> u32 {
    let digit = code % 4;
    if used && digit <= 2 { digit } else { END }
}

fn column(code: u32, cells: u32) -> [u32; 4] {
    [
        cell(code, 0 < cells),
        cell(code / 4, 1 < cells),
        cell(code / 16, 2 < cells),
        cell(code / 64, 3 < cells),
    ]
}

// Heads, then links, then ends.
fn decoded(code: u32, n: u32, m: u32) -> Tables {
    let nodes = 2 * (n % 3);
    let edges = 2 * (m % 3);
    let links = code / power(n);
    let ends = links / power(m);
    Tables {
        heads: column(code, nodes),
        links: column(links, edges),
        ends: column(ends, edges),
    }
}

// 4 to the power of the cells that 0, 1 or 2 rows have in a column.
fn power(rows: u32) -> u32
    ensures { 0 < result }
{
    match rows {
        0 => 1,
        1 => 16,
        _ => 256,
    }
}

// 0 accepted, 1 to 3 an outgoing fault at node 0 to 2, 4 to 6 an incoming one, 7 anything else.
fn answer(t: Tables, n: u32, m: u32) -> usize {
    let net = Network {
        weights: &[0; 2],
        heads: &t.heads,
        registers: &[0; 2],
        links: &t.links,
        ends: &t.ends,
        n,
        m,
    };
    match check(net) {
        Ok(rows) if rows == 2 * (m % 4) => 0,
        Err(Fault::At(EdgeDirection::Outgoing, a)) if a.0 <= 2 => 1 + a.index(),
        Err(Fault::At(EdgeDirection::Incoming, a)) if a.0 <= 2 => 4 + a.index(),
        _ => 7,
    }
}

fn counted(t: Tally, k: usize) -> Tally {
    let i = k % 8;
    let mut counts = t.counts;
    counts[i] = std::num::wrapping_add_u32(counts[i], 1);
    Tally {
        counts,
        hash: (t.hash % 1000003 * 31 + (i as u64)) % 1000003,
    }
}

fn all(networks: u32, n: u32, m: u32) -> Tally {
    let mut t = Tally {
        counts: [0; 8],
        hash: 0,
    };
    for code in 0..networks {
        t = counted(t, answer(decoded(code, n, m), n, m));
    }
    t
}

fn number(stdout: &Stdout, x: u64) -> io::Result<()> {
    stdout.write_all(b" ")?;
    print_number(stdout, x);
    Ok(())
}

fn count(stdout: &Stdout, x: u32) -> io::Result<()> {
    number(stdout, x as u64)
}

fn line(stdout: &Stdout, n: u32, m: u32) -> io::Result<()> {
    let i = 3 * (n as usize % 3) + (m as usize % 3);
    let networks = NETWORKS[i];
    let t = all(networks, n, m);
    print_number(stdout, n as u64);
    count(stdout, m)?;
    stdout.write_all(b":")?;
    count(stdout, networks)?;
    for answers in t.counts {
        count(stdout, answers)?;
    }
    number(stdout, t.hash)?;
    stdout.write_all(b"\n")
}

fn main(rt: HostRuntime) -> io::Result<()> {
    let stdout = rt.stdout();
    faults::run(&stdout)?;
    for n in 0..3 {
        for m in 0..3 {
            line(&stdout, n, m)?;
        }
    }
    Ok(())
}
