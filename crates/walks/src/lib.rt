// The walks along both lists of a node, into output tables that the caller lends.
// A missing node has no items. Both lists are settled before anything is written: 6 comes before 7.
#![tactic(auto)]

ghost use Rattle.std.specs.Prelude.{◌≡◌};
ghost use Rattle.index.specs.Index.{number_of};
ghost use Rattle.tables.specs.Net.{net_of};
ghost use Rattle.tables.specs.Answers.{out, told_items};
ghost use Rattle.walks.specs.Walks.{neighbors, edges, edge_weights, edges_between, edges_mut, walked_legs};
ghost use Rattle.legs.specs.Legs.{tables3};

use index::EdgeDirection::{Incoming, Outgoing};
use index::{EdgeDirection, NodeIndex, Refusal};
use legs::parts::{along, walk, walk_edges};
use lists::{Item, Pick};
use tables::Network;
use tables::parts::{INCOMING, OUTGOING};

// The item of each row that a walk takes of node a's list in one direction, then of its other list. Inlined, so that each walk below is compiled
// for its own item and picks: as one function for all of them it took half as long again for each row.
#[inline(always)]
#[tactic(auto, using(tables::proofs::Guards::guards, tables::proofs::Laws::fitting), unfolding(crate::specs::Walks::walked_legs))]
fn walk_around(
    net: Network,
    a: NodeIndex,
    item: Item,
    direction: EdgeDirection,
    first: Pick,
    second: Pick,
    items: &mut [u32],
) -> Result<u32, Refusal>
    ensures { out (told_items result) items.new ≡ walked_legs (net_of net.entry) a.0 item (number_of direction) first second items.old }
{
    if !net.fits() {
        return Err(Refusal::Tables);
    }
    if net.n <= a.0 {
        return Ok(0);
    }
    let k = direction.number();
    let first = along(net.heads, a, k, first);
    let second = along(net.heads, a, 1 - k, second);
    walk(
        net.registers,
        net.links,
        net.ends,
        net.m,
        item,
        first,
        second,
        items,
    )
}

// The far ends of the outgoing list, then those of the incoming list without self-loops.
#[tactic(auto, unfolding(crate::specs::Walks::neighbors, crate::specs::Walks::walked_legs))]
pub fn neighbors(net: Network, a: NodeIndex, items: &mut [u32]) -> Result<u32, Refusal>
    ensures { out (told_items result) items.new ≡ neighbors (net_of net.entry) a.0 items.old }
{
    let (every, inward) = (Pick::Every, Pick::NotTo(a));
    walk_around(net, a, Item::Far, Outgoing, every, inward, items)
}

// The register numbers of the same edges.
#[tactic(auto, unfolding(crate::specs::Walks::edge_weights, crate::specs::Walks::walked_legs))]
pub fn edge_weights(net: Network, a: NodeIndex, items: &mut [u32]) -> Result<u32, Refusal>
    ensures { out (told_items result) items.new ≡ edge_weights (net_of net.entry) a.0 items.old }
{
    let (every, inward) = (Pick::Every, Pick::NotTo(a));
    walk_around(net, a, Item::Weight, Outgoing, every, inward, items)
}

// The numbers of those whose far end is b.
#[tactic(auto, using(crate::proofs::Calls::between_told))]
pub fn edges_between(
    net: Network,
    a: NodeIndex,
    b: NodeIndex,
    items: &mut [u32],
) -> Result<u32, Refusal>
    ensures { out (told_items result) items.new ≡ edges_between (net_of net.entry) a.0 b.0 items.old }
{
    let (outward, inward) = (Pick::To(b), Pick::ToNot(b, a));
    walk_around(net, a, Item::Number, Outgoing, outward, inward, items)
}

// The numbers of all edges, incoming ones first; a self-loop comes twice.
#[tactic(auto, using(crate::proofs::Calls::mut_told))]
pub fn edges_mut(net: Network, a: NodeIndex, items: &mut [u32]) -> Result<u32, Refusal>
    ensures { out (told_items result) items.new ≡ edges_mut (net_of net.entry) a.0 items.old }
{
    let every = Pick::Every;
    walk_around(net, a, Item::Number, Incoming, every, every, items)
}

// The Rust's mutable weights, as the numbers of their rows: those of `edges_mut`.
pub fn edge_weights_mut(net: Network, a: NodeIndex, items: &mut [u32]) -> Result<u32, Refusal>
    ensures { out (told_items result) items.new ≡ edges_mut (net_of net.entry) a.0 items.old }
{
    edges_mut(net, a, items)
}

// Number, source and target of each edge of the neighbour walk, the ends of incoming ones turned round.
#[tactic(auto, using(tables::proofs::Guards::guards, tables::proofs::Laws::fitting), unfolding(crate::specs::Walks::edges))]
pub fn edges(
    net: Network,
    a: NodeIndex,
    numbers: &mut [u32],
    sources: &mut [u32],
    targets: &mut [u32],
) -> Result<u32, Refusal>
    ensures { out (told_items result) (tables3 numbers.new sources.new targets.new)
        ≡ edges (net_of net.entry) a.0 (tables3 numbers.old sources.old targets.old) }
{
    if !net.fits() {
        return Err(Refusal::Tables);
    }
    if net.n <= a.0 {
        return Ok(0);
    }
    let first = along(net.heads, a, OUTGOING, Pick::Every);
    let second = along(net.heads, a, INCOMING, Pick::NotTo(a));
    walk_edges(
        net.registers,
        net.links,
        net.ends,
        net.m,
        first,
        second,
        numbers,
        sources,
        targets,
    )
}
