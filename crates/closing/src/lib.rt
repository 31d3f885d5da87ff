// Taking a node out of a network.
// A call that changes something takes the columns one by one, so that its signature says which (`tables::Network`).
#![tactic(auto)]

ghost use Rattle.std.specs.Prelude.{◌≡◌};
ghost use Rattle.tables.specs.Net.{entering, leaving};
ghost use Rattle.tables.specs.Answers.{out};
ghost use Rattle.closing.specs.Closing.{remove_node, told_node_removed};

use index::{NodeIndex, Refusal};
use parts::close;
use sound::check;
use tables::Network;
use tables::parts::fits;

pub mod parts;

// The node's weight, the rows read, and how many edges went with it: their weights stand in the table lent for them.
#[derive(Clone, Copy)]
pub struct RemovedNode {
    pub weight: i32,
    pub rows: u64,
    pub count: u32,
}

// Takes out node a with all its edges; the last node takes its place. Only a sound network is changed.
#[tactic(auto, using(tables::proofs::Guards::guards, tables::proofs::Laws::fitting), unfolding(crate::specs::Closing::remove_node))]
pub fn remove_node(
    weights: &mut [i32],
    heads: &mut [u32],
    registers: &mut [u32],
    links: &mut [u32],
    ends: &mut [u32],
    n: &mut u32,
    m: &mut u32,
    a: NodeIndex,
    items: &mut [u32],
) -> Result<RemovedNode, Refusal>
    ensures { out (told_node_removed result) (leaving weights.new heads.new registers.new links.new ends.new n.new m.new, items.new)
        ≡ remove_node (entering weights.old heads.old registers.old links.old ends.old n.old m.old) a.0 items.old }
{
    let nodes = *n;
    let edges = *m;
    if !fits(weights, heads, registers, links, ends, nodes, edges) {
        return Err(Refusal::Tables);
    }
    if nodes <= a.0 {
        return Err(Refusal::NoNode);
    }
    let net = Network {
        weights,
        heads,
        registers,
        links,
        ends,
        n: nodes,
        m: edges,
    };
    if check(net).is_err() {
        return Err(Refusal::Broken);
    }
    close(weights, heads, registers, links, ends, n, m, a, items)
}
