// What the calls are made of. Only parts may demand something of their caller.
ghost use Rattle.std.specs.Prelude.{◌≡◌, length};
ghost use Rattle.tables.specs.Net.{fits, entering, loan};
ghost use Rattle.tables.specs.Parts.{NodeRow, EdgeRow, WritesNode, WritesEdge, NodeSpan, EdgeSpan, VacatesNodes, VacatesEdges, Linkable, LinksEdge};

use crate::row::{Edge, Node};
use index::{EdgeIndex, NodeIndex};

// The most rows of each kind.
pub const NODE_ROWS: usize = 16384;

pub const EDGE_ROWS: usize = 65536;

// The cells that a node has in `heads`, and an edge in `links` and in `ends`.
pub const NODE_CELLS: usize = 2;

pub const EDGE_CELLS: usize = 2;

// Which of a row's cells: of its links, the two lists; of its ends, the nodes that have it in these. Parts take such a cell's place k as
// the number it is, not as an `EdgeDirection`: it is added to a row's first cell, and 1 - k is the other.
pub const OUTGOING: usize = 0;

pub const INCOMING: usize = 1;

pub const SOURCE: usize = OUTGOING;

pub const TARGET: usize = INCOMING;

// The columns are within the limits, agree in rows and hold the counts; else every call is refused 1. A call that changes some of them tests
// by this; one that changes none has them as a `Network`.
pub fn fits(
    weights: &[i32],
    heads: &[u32],
    registers: &[u32],
    links: &[u32],
    ends: &[u32],
    n: u32,
    m: u32,
) -> bool
    ensures { result ≡ fits (entering weights.now heads.now registers.now links.now ends.now n m) }
{
    let nodes = weights.len();
    let edges = registers.len();
    if NODE_ROWS < nodes {
        return false;
    }
    if EDGE_ROWS < edges {
        return false;
    }
    if heads.len() != NODE_CELLS * nodes {
        return false;
    }
    if links.len() != EDGE_CELLS * edges {
        return false;
    }
    if ends.len() != EDGE_CELLS * edges {
        return false;
    }
    if nodes < n as usize {
        return false;
    }
    edges >= m as usize
}

pub fn write_node(weights: &mut [i32], heads: &mut [u32], a: usize, row: Node)
    requires { NodeRow (length weights.old) (length heads.old) a }
    ensures { WritesNode (loan weights.old weights.new) (loan heads.old heads.new) a row }
{
    let w = row.weight;
    weights[a] = w;
    heads[NODE_CELLS * a + OUTGOING] = row.outgoing.0;
    heads[NODE_CELLS * a + INCOMING] = row.incoming.0;
}

pub fn write_edge(registers: &mut [u32], links: &mut [u32], ends: &mut [u32], e: usize, row: Edge)
    requires { EdgeRow (length registers.old) (length links.old) (length ends.old) e }
    ensures { WritesEdge (loan registers.old registers.new) (loan links.old links.new) (loan ends.old ends.new) e row }
{
    registers[e] = row.weight;
    links[EDGE_CELLS * e + OUTGOING] = row.outgoing.0;
    links[EDGE_CELLS * e + INCOMING] = row.incoming.0;
    ends[EDGE_CELLS * e + SOURCE] = row.source.0;
    ends[EDGE_CELLS * e + TARGET] = row.target.0;
}

// Row e becomes an edge from a to b: its next are the old heads of its two lists, and it is their new head.
pub fn link_edge(
    heads: &mut [u32],
    registers: &mut [u32],
    links: &mut [u32],
    ends: &mut [u32],
    e: u32,
    a: NodeIndex,
    b: NodeIndex,
    w: u32,
)
    requires { Linkable (length heads.old) (length registers.old) (length links.old) (length ends.old) e a.0 b.0 }
    ensures { LinksEdge (loan heads.old heads.new) (loan registers.old registers.new) (loan links.old links.new) (loan ends.old ends.new) e a.0 b.0 w }
{
    // Both heads are read before either is set, and the two cells differ: a self-loop needs no case.
    let outgoing = NODE_CELLS * (a.0 as usize) + OUTGOING;
    let incoming = NODE_CELLS * (b.0 as usize) + INCOMING;
    let row = Edge {
        weight: w,
        outgoing: EdgeIndex(heads[outgoing]),
        incoming: EdgeIndex(heads[incoming]),
        source: a,
        target: b,
    };
    write_edge(registers, links, ends, e as usize, row);
    heads[outgoing] = e;
    heads[incoming] = e;
}

// The node rows from `first` up to `last` become vacant.
pub fn vacate_nodes(weights: &mut [i32], heads: &mut [u32], first: usize, last: usize)
    requires { NodeSpan (length weights.old) (length heads.old) first last }
    ensures { VacatesNodes (loan weights.old weights.new) (loan heads.old heads.new) first last }
{
    weights[first..last].fill(0);
    heads[NODE_CELLS * first..NODE_CELLS * last].fill(EdgeIndex::END.0);
}

// The edge rows from `first` up to `last` become vacant.
pub fn vacate_edges(
    registers: &mut [u32],
    links: &mut [u32],
    ends: &mut [u32],
    first: usize,
    last: usize,
)
    requires { EdgeSpan (length registers.old) (length links.old) (length ends.old) first last }
    ensures { VacatesEdges (loan registers.old registers.new) (loan links.old links.new) (loan ends.old ends.new) first last }
{
    registers[first..last].fill(0);
    links[EDGE_CELLS * first..EDGE_CELLS * last].fill(EdgeIndex::END.0);
    ends[EDGE_CELLS * first..EDGE_CELLS * last].fill(NodeIndex::END.0);
}
