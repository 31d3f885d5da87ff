// The edge between two nodes: found, contained, updated.
// A call that changes something takes the columns one by one, so that its signature says which (`tables::Network`).
#![tactic(auto)]

ghost use Rattle.std.specs.Prelude.{◌≡◌};
ghost use Rattle.tables.specs.Net.{entering, leaving, net_of};
ghost use Rattle.tables.specs.Answers.{out, told_edge};
ghost use Rattle.find.specs.Find.{find_edge, contains_edge, update_edge, told_contains};

use index::{EdgeIndex, NodeIndex, Refusal};
use parts::seek;
use tables::Network;
use tables::parts::fits;

pub mod parts;

// The first edge of a whose far end is b: the outgoing list first, then the incoming one.
#[tactic(auto, using(tables::proofs::Guards::guards, tables::proofs::Laws::fitting), unfolding(crate::specs::Find::find_edge))]
pub fn find_edge(net: Network, a: NodeIndex, b: NodeIndex) -> Result<EdgeIndex, Refusal>
    ensures { told_edge result ≡ find_edge (net_of net.entry) a.0 b.0 }
{
    if !net.fits() {
        return Err(Refusal::Tables);
    }
    if net.n <= a.0 {
        return Err(Refusal::NoNode);
    }
    match seek(net.heads, net.links, net.ends, net.m, a, b)? {
        Some((e, _)) => Ok(e),
        None => Err(Refusal::Nothing),
    }
}

// Whether there is such an edge. A missing node has none.
#[tactic(auto, using(tables::proofs::Guards::guards, tables::proofs::Laws::fitting), unfolding(crate::specs::Find::contains_edge))]
pub fn contains_edge(net: Network, a: NodeIndex, b: NodeIndex) -> Result<bool, Refusal>
    ensures { told_contains result ≡ contains_edge (net_of net.entry) a.0 b.0 }
{
    if !net.fits() {
        return Err(Refusal::Tables);
    }
    if net.n <= a.0 {
        return Ok(false);
    }
    let found = seek(net.heads, net.links, net.ends, net.m, a, b)?;
    Ok(found.is_some())
}

// Sets the weight of the edge that is found, even in a full table; else adds one.
#[tactic(auto, using(tables::proofs::Guards::guards, tables::proofs::Laws::fitting), unfolding(crate::specs::Find::update_edge))]
pub fn update_edge(
    weights: &[i32],
    heads: &mut [u32],
    registers: &mut [u32],
    links: &mut [u32],
    ends: &mut [u32],
    n: u32,
    m: &mut u32,
    a: NodeIndex,
    b: NodeIndex,
    w: u32,
) -> Result<EdgeIndex, Refusal>
    ensures { out (told_edge result) (leaving weights.now heads.new registers.new links.new ends.new n m.new)
        ≡ update_edge (entering weights.now heads.old registers.old links.old ends.old n m.old) a.0 b.0 w }
{
    if !fits(weights, heads, registers, links, ends, n, *m) {
        return Err(Refusal::Tables);
    }
    // A missing node has no edge to find; what refuses it refuses the new edge.
    if a.0 < n {
        if let Some((e, _)) = seek(heads, links, ends, *m, a, b)? {
            registers[e.index()] = w;
            return Ok(e);
        }
    }
    rows::add_edge(weights, heads, registers, links, ends, n, m, a, b, w)
}
