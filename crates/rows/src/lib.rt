// Rows added, listed, and cleared.
// A call that changes rows takes the network's five columns and two counts in this order, then its own operands. Each answers
// every input, and is refused 1 before all else where the columns do not fit (`tables::parts::fits`).
#![tactic(auto)]

ghost use Rattle.std.specs.Prelude.{◌≡◌};
ghost use Rattle.tables.specs.Net.{entering, leaving, net_of};
ghost use Rattle.tables.specs.Answers.{out, told_node, told_edge, told_change, told_items};
ghost use Rattle.rows.specs.Calls.{add_node, add_edge, all_edge_weights, clear, clear_edges};

use index::{EdgeIndex, NodeIndex, Refusal};
use tables::parts::{NODE_CELLS, fits};
use tables::{Network, Node, parts};

#[tactic(auto, using(tables::proofs::Guards::guards, tables::proofs::Laws::fitting), unfolding(crate::specs::Calls::add_node))]
pub fn add_node(
    weights: &mut [i32],
    heads: &mut [u32],
    registers: &[u32],
    links: &[u32],
    ends: &[u32],
    n: &mut u32,
    m: u32,
    w: i32,
) -> Result<NodeIndex, Refusal>
    ensures { out (told_node result) (leaving weights.new heads.new registers.now links.now ends.now n.new m)
        ≡ add_node (entering weights.old heads.old registers.now links.now ends.now n.old m) w }
{
    let a = *n;
    if !fits(weights, heads, registers, links, ends, a, m) {
        return Err(Refusal::Tables);
    }
    if weights.len() <= a as usize {
        return Err(Refusal::Full);
    }
    parts::write_node(weights, heads, a as usize, Node::bare(w));
    *n = a + 1;
    Ok(NodeIndex(a))
}

#[tactic(auto, using(tables::proofs::Guards::guards, tables::proofs::Laws::fitting), unfolding(crate::specs::Calls::add_edge))]
pub fn add_edge(
    weights: &[i32],
    heads: &mut [u32],
    registers: &mut [u32],
    links: &mut [u32],
    ends: &mut [u32],
    n: u32,
    m: &mut u32,
    a: NodeIndex,
    b: NodeIndex,
    w: u32,
) -> Result<EdgeIndex, Refusal>
    ensures { out (told_edge result) (leaving weights.now heads.new registers.new links.new ends.new n m.new)
        ≡ add_edge (entering weights.now heads.old registers.old links.old ends.old n m.old) a.0 b.0 w }
{
    let e = *m;
    if !fits(weights, heads, registers, links, ends, n, e) {
        return Err(Refusal::Tables);
    }
    if registers.len() <= e as usize {
        return Err(Refusal::Full);
    }
    if n <= a.0 {
        return Err(Refusal::NoNode);
    }
    if n <= b.0 {
        return Err(Refusal::NoNode);
    }
    parts::link_edge(heads, registers, links, ends, e, a, b, w);
    *m = e + 1;
    Ok(EdgeIndex(e))
}

// The register numbers of all edges, in row order.
#[tactic(auto, using(tables::proofs::Guards::guards, tables::proofs::Laws::fitting), unfolding(crate::specs::Calls::all_edge_weights))]
pub fn all_edge_weights(net: Network, items: &mut [u32]) -> Result<u32, Refusal>
    ensures { out (told_items result) items.new ≡ all_edge_weights (net_of net.entry) items.old }
{
    if !net.fits() {
        return Err(Refusal::Tables);
    }
    let count = net.m as usize;
    if items.len() < count {
        return Err(Refusal::Short);
    }
    // Cell by cell: for std's `copy_from_slice` the archive for C would need a function from outside (`memmove`).
    for e in 0..count {
        items[e] = net.registers[e];
    }
    Ok(net.m)
}

// Takes out all edges. The nodes keep their weights.
#[tactic(auto, using(tables::proofs::Guards::guards, tables::proofs::Laws::fitting), unfolding(crate::specs::Calls::clear_edges))]
pub fn clear_edges(
    weights: &[i32],
    heads: &mut [u32],
    registers: &mut [u32],
    links: &mut [u32],
    ends: &mut [u32],
    n: u32,
    m: &mut u32,
) -> Result<(), Refusal>
    ensures { out (told_change result) (leaving weights.now heads.new registers.new links.new ends.new n m.new)
        ≡ clear_edges (entering weights.now heads.old registers.old links.old ends.old n m.old) }
{
    if !fits(weights, heads, registers, links, ends, n, *m) {
        return Err(Refusal::Tables);
    }
    parts::vacate_edges(registers, links, ends, 0, *m as usize);
    heads[..NODE_CELLS * (n as usize)].fill(EdgeIndex::END.0);
    *m = 0;
    Ok(())
}

// Takes out all nodes and edges.
#[tactic(auto, using(tables::proofs::Guards::guards, tables::proofs::Laws::fitting), unfolding(crate::specs::Calls::clear))]
pub fn clear(
    weights: &mut [i32],
    heads: &mut [u32],
    registers: &mut [u32],
    links: &mut [u32],
    ends: &mut [u32],
    n: &mut u32,
    m: &mut u32,
) -> Result<(), Refusal>
    ensures { out (told_change result) (leaving weights.new heads.new registers.new links.new ends.new n.new m.new)
        ≡ clear (entering weights.old heads.old registers.old links.old ends.old n.old m.old) }
{
    if !fits(weights, heads, registers, links, ends, *n, *m) {
        return Err(Refusal::Tables);
    }
    parts::vacate_edges(registers, links, ends, 0, *m as usize);
    parts::vacate_nodes(weights, heads, 0, *n as usize);
    *n = 0;
    *m = 0;
    Ok(())
}
