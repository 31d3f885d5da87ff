// One row looked up, or its weight set.
// A lookup takes the network as one value, a set its five columns and two counts in this order; then come the operands. Each answers
// every input, and is refused 1 before all else where the columns do not fit (`tables::parts::fits`).
#![tactic(auto)]

ghost use Rattle.std.specs.Prelude.{◌≡◌};
ghost use Rattle.tables.specs.Net.{entering, leaving, net_of};
ghost use Rattle.tables.specs.Answers.{out, told_edge, told_node_weight, told_edge_weight, told_ends, told_change};
ghost use Rattle.lookups.specs.Lookups.{node_weight, edge_weight, edge_endpoints, link_told, first_edge, next_edge, set_node_weight, set_edge_weight};

use index::{EdgeDirection, EdgeIndex, NodeIndex, Refusal};
use tables::Network;
use tables::parts::{EDGE_CELLS, NODE_CELLS, SOURCE, TARGET, fits};

#[tactic(auto, using(tables::proofs::Guards::guards, tables::proofs::Laws::fitting), unfolding(crate::specs::Lookups::node_weight))]
pub fn node_weight(net: Network, a: NodeIndex) -> Result<i32, Refusal>
    ensures { told_node_weight result ≡ node_weight (net_of net.entry) a.0 }
{
    if !net.fits() {
        return Err(Refusal::Tables);
    }
    if net.n <= a.0 {
        return Err(Refusal::NoNode);
    }
    Ok(net.weights[a.index()])
}

#[tactic(auto, using(tables::proofs::Guards::guards, tables::proofs::Laws::fitting), unfolding(crate::specs::Lookups::edge_weight))]
pub fn edge_weight(net: Network, e: EdgeIndex) -> Result<u32, Refusal>
    ensures { told_edge_weight result ≡ edge_weight (net_of net.entry) e.0 }
{
    if !net.fits() {
        return Err(Refusal::Tables);
    }
    if net.m <= e.0 {
        return Err(Refusal::NoEdge);
    }
    Ok(net.registers[e.index()])
}

#[tactic(auto, using(tables::proofs::Guards::guards, tables::proofs::Laws::fitting), unfolding(crate::specs::Lookups::edge_endpoints))]
pub fn edge_endpoints(net: Network, e: EdgeIndex) -> Result<(NodeIndex, NodeIndex), Refusal>
    ensures { told_ends result ≡ edge_endpoints (net_of net.entry) e.0 }
{
    if !net.fits() {
        return Err(Refusal::Tables);
    }
    if net.m <= e.0 {
        return Err(Refusal::NoEdge);
    }
    let row = EDGE_CELLS * e.index();
    Ok((
        NodeIndex(net.ends[row + SOURCE]),
        NodeIndex(net.ends[row + TARGET]),
    ))
}

// A link as it stands; `END` alone is nothing.
fn link_told(e: EdgeIndex) -> Result<EdgeIndex, Refusal>
    ensures { told_edge result ≡ link_told e.0 }
{
    if e.is_end() {
        return Err(Refusal::Nothing);
    }
    Ok(e)
}

#[tactic(auto, using(tables::proofs::Guards::guards, tables::proofs::Laws::fitting), unfolding(crate::specs::Lookups::first_edge))]
pub fn first_edge(net: Network, a: NodeIndex, dir: EdgeDirection) -> Result<EdgeIndex, Refusal>
    ensures { told_edge result ≡ first_edge (net_of net.entry) a.0 dir }
{
    if !net.fits() {
        return Err(Refusal::Tables);
    }
    if net.n <= a.0 {
        return Err(Refusal::NoNode);
    }
    link_told(EdgeIndex(net.heads[NODE_CELLS * a.index() + dir.number()]))
}

#[tactic(auto, using(tables::proofs::Guards::guards, tables::proofs::Laws::fitting), unfolding(crate::specs::Lookups::next_edge))]
pub fn next_edge(net: Network, e: EdgeIndex, dir: EdgeDirection) -> Result<EdgeIndex, Refusal>
    ensures { told_edge result ≡ next_edge (net_of net.entry) e.0 dir }
{
    if !net.fits() {
        return Err(Refusal::Tables);
    }
    if net.m <= e.0 {
        return Err(Refusal::NoEdge);
    }
    link_told(EdgeIndex(net.links[EDGE_CELLS * e.index() + dir.number()]))
}

#[tactic(auto, using(tables::proofs::Guards::guards, tables::proofs::Laws::fitting), unfolding(crate::specs::Lookups::set_node_weight))]
pub fn set_node_weight(
    weights: &mut [i32],
    heads: &[u32],
    registers: &[u32],
    links: &[u32],
    ends: &[u32],
    n: u32,
    m: u32,
    a: NodeIndex,
    w: i32,
) -> Result<(), Refusal>
    ensures { out (told_change result) (leaving weights.new heads.now registers.now links.now ends.now n m)
        ≡ set_node_weight (entering weights.old heads.now registers.now links.now ends.now n m) a.0 w }
{
    if !fits(weights, heads, registers, links, ends, n, m) {
        return Err(Refusal::Tables);
    }
    if n <= a.0 {
        return Err(Refusal::NoNode);
    }
    weights[a.index()] = w;
    Ok(())
}

#[tactic(auto, using(tables::proofs::Guards::guards, tables::proofs::Laws::fitting), unfolding(crate::specs::Lookups::set_edge_weight))]
pub fn set_edge_weight(
    weights: &[i32],
    heads: &[u32],
    registers: &mut [u32],
    links: &[u32],
    ends: &[u32],
    n: u32,
    m: u32,
    e: EdgeIndex,
    w: u32,
) -> Result<(), Refusal>
    ensures { out (told_change result) (leaving weights.now heads.now registers.new links.now ends.now n m)
        ≡ set_edge_weight (entering weights.now heads.now registers.old links.now ends.now n m) e.0 w }
{
    if !fits(weights, heads, registers, links, ends, n, m) {
        return Err(Refusal::Tables);
    }
    if m <= e.0 {
        return Err(Refusal::NoEdge);
    }
    registers[e.index()] = w;
    Ok(())
}
