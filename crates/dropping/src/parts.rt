// A node without edges is dropped.
// A part takes the columns that it needs one by one, so that its signature says which it may change (`tables::Network`).
ghost use Rattle.std.specs.Prelude.{length};
ghost use Rattle.tables.specs.Net.{loan};
ghost use Rattle.lists.specs.Parts.{Edges};
ghost use Rattle.dropping.specs.Parts.{Renumbers, NodePair, MovesNode, Droppable, Drops};

use index::{EdgeIndex, NodeIndex};
use tables::Node;
use tables::parts::{EDGE_CELLS, INCOMING, NODE_CELLS, OUTGOING, write_node};

// The rows from `link` on, in direction k, get node a as their end; each counts one.
pub fn renumber(links: &[u32], ends: &mut [u32], m: u32, k: usize, link: u32, a: NodeIndex) -> u32
    requires { Edges (length links.now) (length ends.old) m k }
    ensures { Renumbers links.now (loan ends.old ends.new) m k link a.0 result }
{
    let mut e = link;
    for rows in 0..m {
        if m <= e {
            return rows;
        }
        let cell = EDGE_CELLS * EdgeIndex(e).index() + k;
        ends[cell] = a.0;
        e = links[cell];
    }
    m
}

// Row b is copied over row a, and becomes vacant.
pub fn move_node(weights: &mut [i32], heads: &mut [u32], a: usize, b: usize)
    requires { NodePair (length weights.old) (length heads.old) a b }
    ensures { MovesNode (loan weights.old weights.new) (loan heads.old heads.new) a b }
{
    let weight = weights[b];
    let row = Node {
        weight,
        outgoing: EdgeIndex(heads[NODE_CELLS * b + OUTGOING]),
        incoming: EdgeIndex(heads[NODE_CELLS * b + INCOMING]),
    };
    write_node(weights, heads, a, row);
    write_node(weights, heads, b, Node::bare(0));
}

// The last node takes the place of a, which has no edges: its row moves, and the rows of its lists get the new number.
pub fn drop_node(
    weights: &mut [i32],
    heads: &mut [u32],
    links: &[u32],
    ends: &mut [u32],
    n: &mut u32,
    m: u32,
    a: NodeIndex,
) -> u32
    requires { Droppable (length weights.old) (length heads.old) (length links.now) (length ends.old) n.old m a.0 }
    ensures { Drops (loan weights.old weights.new) (loan heads.old heads.new) links.now (loan ends.old ends.new) (loan n.old n.new) m a.0 result }
{
    let last = *n - 1;
    let cell = NODE_CELLS * (last as usize);
    let outgoing = heads[cell + OUTGOING];
    let incoming = heads[cell + INCOMING];
    move_node(weights, heads, a.0 as usize, last as usize);
    *n = last;
    let q = renumber(links, ends, m, OUTGOING, outgoing, a);
    let r = renumber(links, ends, m, INCOMING, incoming, a);
    q + r
}
