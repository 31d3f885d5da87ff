// Edges added, reweighted and cleared in a network with a directory.
// A call that changes something takes the columns one by one, so that its signature says which (`tables::Network`).
#![tactic(auto)]

ghost use Rattle.std.specs.Prelude.{◌≡◌};
ghost use Rattle.tables.specs.Net.{entering, leaving};
ghost use Rattle.tables.specs.Answers.{out, told_edge, told_change};
ghost use Rattle.directory.specs.Directory.{filed};
ghost use Rattle.dirrows.specs.Calls.{add_edge_filed, set_edge_weight_filed, clear_edges_filed, clear_filed};

use directory::parts::enter;
use index::{EdgeIndex, NodeIndex, Refusal};
use parts::{addable, free_for, reweigh};
use tables::Network;
use tables::parts::{fits, link_edge};

pub mod parts;

// Adds an edge from a to b. What refuses it without a directory comes first, then what stands against its number; only then is anything stored.
#[tactic(auto, unfolding(crate::specs::Calls::add_edge_filed))]
pub fn add_edge(
    weights: &[i32],
    heads: &mut [u32],
    registers: &mut [u32],
    links: &mut [u32],
    ends: &mut [u32],
    n: u32,
    m: &mut u32,
    directory: &mut [u32],
    a: NodeIndex,
    b: NodeIndex,
    w: u32,
) -> Result<EdgeIndex, Refusal>
    ensures { out (told_edge result) (filed (leaving weights.now heads.new registers.new links.new ends.new n m.new) directory.new)
        ≡ add_edge_filed (filed (entering weights.now heads.old registers.old links.old ends.old n m.old) directory.old) a.0 b.0 w }
{
    let e = *m;
    let net = Network {
        weights,
        heads,
        registers,
        links,
        ends,
        n,
        m: e,
    };
    addable(net, a, b)?;
    free_for(directory, w, EdgeIndex::END)?;
    link_edge(heads, registers, links, ends, e, a, b, w);
    enter(directory, w, EdgeIndex(e));
    *m = e + 1;
    Ok(EdgeIndex(e))
}

// Gives edge e the register number w, and moves its entry.
#[tactic(auto, using(tables::proofs::Laws::fitting), unfolding(crate::specs::Calls::set_edge_weight_filed, lookups::specs::Lookups::set_edge_weight))]
pub fn set_edge_weight(
    weights: &[i32],
    heads: &[u32],
    registers: &mut [u32],
    links: &[u32],
    ends: &[u32],
    n: u32,
    m: u32,
    directory: &mut [u32],
    e: EdgeIndex,
    w: u32,
) -> Result<(), Refusal>
    ensures { out (told_change result) (filed (leaving weights.now heads.now registers.new links.now ends.now n m) directory.new)
        ≡ set_edge_weight_filed (filed (entering weights.now heads.now registers.old links.now ends.now n m) directory.old) e.0 w }
{
    if !fits(weights, heads, registers, links, ends, n, m) {
        return Err(Refusal::Tables);
    }
    if m <= e.0 {
        return Err(Refusal::NoEdge);
    }
    reweigh(registers, directory, e, w)
}

// Takes out all edges; every entry becomes none.
#[tactic(auto, unfolding(crate::specs::Calls::clear_edges_filed))]
pub fn clear_edges(
    weights: &[i32],
    heads: &mut [u32],
    registers: &mut [u32],
    links: &mut [u32],
    ends: &mut [u32],
    n: u32,
    m: &mut u32,
    directory: &mut [u32],
) -> Result<(), Refusal>
    ensures { out (told_change result) (filed (leaving weights.now heads.new registers.new links.new ends.new n m.new) directory.new)
        ≡ clear_edges_filed (filed (entering weights.now heads.old registers.old links.old ends.old n m.old) directory.old) }
{
    rows::clear_edges(weights, heads, registers, links, ends, n, m)?;
    directory.fill(EdgeIndex::END.0);
    Ok(())
}

// Takes out all nodes and edges; every entry becomes none.
#[tactic(auto, unfolding(crate::specs::Calls::clear_filed))]
pub fn clear(
    weights: &mut [i32],
    heads: &mut [u32],
    registers: &mut [u32],
    links: &mut [u32],
    ends: &mut [u32],
    n: &mut u32,
    m: &mut u32,
    directory: &mut [u32],
) -> Result<(), Refusal>
    ensures { out (told_change result) (filed (leaving weights.new heads.new registers.new links.new ends.new n.new m.new) directory.new)
        ≡ clear_filed (filed (entering weights.old heads.old registers.old links.old ends.old n.old m.old) directory.old) }
{
    rows::clear(weights, heads, registers, links, ends, n, m)?;
    directory.fill(EdgeIndex::END.0);
    Ok(())
}
