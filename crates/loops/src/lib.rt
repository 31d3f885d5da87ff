// The bench's loops: one call from C for many operations. Each makes every call of its table, refused or not, and adds up what
// the calls tell. They are no calls of the library: they measure it.
// The parameters are those of the function for C, which lends each column on its own.
#![tactic(auto)]

ghost use Rattle.std.specs.Prelude.{◌≡◌};
ghost use Rattle.tables.specs.Net.{entering, leaving};
ghost use Rattle.loops.specs.Loops.{sums, add_nodes, add_edges, find_edges, neighbors_of_all, remove_edges};

use find::find_edge;
use index::{EdgeIndex, NodeIndex};
use parts::{adds, items_add};
use removal::remove_edge;
use rows::{add_edge, add_node};
use tables::Network;
use walks::neighbors;

pub mod parts;

// A node for each total.
#[tactic(auto, unfolding(crate::specs::Loops::calls))]
pub fn loop_add_nodes(
    weights: &mut [i32],
    heads: &mut [u32],
    registers: &[u32],
    links: &[u32],
    ends: &[u32],
    n: &mut u32,
    m: u32,
    totals: &[i32],
) -> u64
    ensures { sums result (leaving weights.new heads.new registers.now links.now ends.now n.new m)
        ≡ add_nodes (entering weights.old heads.old registers.now links.now ends.now n.old m) totals.now }
{
    let mut sum: u64 = 0;
    for &w in totals {
        let answer = add_node(weights, heads, registers, links, ends, n, m, w);
        sum = sum.wrapping_add(adds(answer));
    }
    sum
}

// An edge for each row of three cells: source, target, register number.
#[tactic(auto, unfolding(crate::specs::Loops::calls))]
pub fn loop_add_edges(
    weights: &[i32],
    heads: &mut [u32],
    registers: &mut [u32],
    links: &mut [u32],
    ends: &mut [u32],
    n: u32,
    m: &mut u32,
    edges: &[u32],
) -> u64
    ensures { sums result (leaving weights.now heads.new registers.new links.new ends.new n m.new)
        ≡ add_edges (entering weights.now heads.old registers.old links.old ends.old n m.old) edges.now }
{
    let mut sum: u64 = 0;
    let (rows, _) = edges.as_chunks::<3>();
    for &[a, b, w] in rows {
        let (a, b) = (NodeIndex(a), NodeIndex(b));
        let answer = add_edge(weights, heads, registers, links, ends, n, m, a, b, w);
        sum = sum.wrapping_add(adds(answer));
    }
    sum
}

// The edge between the two nodes of each row of two cells.
#[tactic(auto, unfolding(crate::specs::Loops::calls))]
pub fn loop_find_edges(
    weights: &[i32],
    heads: &[u32],
    registers: &[u32],
    links: &[u32],
    ends: &[u32],
    n: u32,
    m: u32,
    pairs: &[u32],
) -> u64
    ensures { result ≡ find_edges (entering weights.now heads.now registers.now links.now ends.now n m) pairs.now }
{
    let net = Network {
        weights,
        heads,
        registers,
        links,
        ends,
        n,
        m,
    };
    let mut sum: u64 = 0;
    let (rows, _) = pairs.as_chunks::<2>();
    for &[a, b] in rows {
        let answer = find_edge(net, NodeIndex(a), NodeIndex(b));
        sum = sum.wrapping_add(adds(answer));
    }
    sum
}

// The neighbours of every node, each time into the same table.
#[tactic(auto, unfolding(crate::specs::Loops::calls))]
pub fn loop_neighbors(
    weights: &[i32],
    heads: &[u32],
    registers: &[u32],
    links: &[u32],
    ends: &[u32],
    n: u32,
    m: u32,
    items: &mut [u32],
) -> u64
    ensures { sums result items.new ≡ neighbors_of_all (entering weights.now heads.now registers.now links.now ends.now n m) items.old }
{
    let net = Network {
        weights,
        heads,
        registers,
        links,
        ends,
        n,
        m,
    };
    let mut sum: u64 = 0;
    for a in 0..n {
        let answer = neighbors(net, NodeIndex(a), items);
        sum = sum.wrapping_add(items_add(answer, items));
    }
    sum
}

// Takes out an edge for each number.
#[tactic(auto, unfolding(crate::specs::Loops::calls))]
pub fn loop_remove_edges(
    weights: &[i32],
    heads: &mut [u32],
    registers: &mut [u32],
    links: &mut [u32],
    ends: &mut [u32],
    n: u32,
    m: &mut u32,
    numbers: &[u32],
) -> u64
    ensures { sums result (leaving weights.now heads.new registers.new links.new ends.new n m.new)
        ≡ remove_edges (entering weights.now heads.old registers.old links.old ends.old n m.old) numbers.now }
{
    let mut sum: u64 = 0;
    for &e in numbers {
        let answer = remove_edge(weights, heads, registers, links, ends, n, m, EdgeIndex(e));
        sum = sum.wrapping_add(adds(answer));
    }
    sum
}
