// The walker of a node's neighbours, by value, and the sum around a node.
#![tactic(auto)]

ghost use Rattle.std.specs.Prelude.{◌≡◌};
ghost use Rattle.tables.specs.Net.{net_of};
ghost use Rattle.tables.specs.Answers.{out};
ghost use Rattle.walker.specs.Steps.{told_begun, told_step, moved, begin, step};
ghost use Rattle.walker.specs.Sums.{told_summed, sum_around};

use index::{EdgeIndex, NodeIndex, Refusal};
use lists::parts::first;
use lists::{Found, Pick};
use parts::sum;
use tables::Network;
use tables::parts::{EDGE_CELLS, INCOMING, NODE_CELLS, OUTGOING, SOURCE, TARGET};

pub mod parts;

// Where a walk around a node stands: its next outgoing edge, and its next incoming one. It skips `start` in the incoming list.
#[derive(Clone, Copy)]
pub struct Walker {
    pub start: NodeIndex,
    pub outgoing: EdgeIndex,
    pub incoming: EdgeIndex,
}

// A neighbour, or why there is none; and the walker as it then stands.
#[derive(Clone, Copy)]
pub struct Step {
    pub neighbor: Result<NodeIndex, Refusal>,
    pub walker: Walker,
}

impl Walker {
    // At the heads of node a's two lists. A missing node has none: the walker is then at its end.
    #[tactic(auto, using(tables::proofs::Guards::guards, tables::proofs::Laws::fitting), unfolding(crate::specs::Steps::begin))]
    pub fn new(net: Network, a: NodeIndex) -> Result<Walker, Refusal>
        ensures { told_begun result ≡ begin (net_of net.entry) a.0 }
    {
        if !net.fits() {
            return Err(Refusal::Tables);
        }
        if net.n <= a.0 {
            return Ok(Walker {
                start: a,
                outgoing: EdgeIndex::END,
                incoming: EdgeIndex::END,
            });
        }
        let row = NODE_CELLS * a.index();
        Ok(Walker {
            start: a,
            outgoing: EdgeIndex(net.heads[row + OUTGOING]),
            incoming: EdgeIndex(net.heads[row + INCOMING]),
        })
    }

    // On to the next neighbour: along the outgoing list, then along the incoming one, where self-loops are skipped.
    #[tactic(auto, using(tables::proofs::Guards::guards, tables::proofs::Laws::fitting), unfolding(crate::specs::Steps::step))]
    pub fn step(self, net: Network) -> Step
        ensures { out (told_step result) (moved result) ≡ step (net_of net.entry) self }
    {
        if !net.fits() {
            return Step {
                neighbor: Err(Refusal::Tables),
                walker: self,
            };
        }
        let e = self.outgoing;
        if e.0 < net.m {
            let row = EDGE_CELLS * e.index();
            let outgoing = EdgeIndex(net.links[row + OUTGOING]);
            return Step {
                neighbor: Ok(NodeIndex(net.ends[row + TARGET])),
                walker: Walker { outgoing, ..self },
            };
        }
        let start = self.start;
        let i = self.incoming;
        let inward = Pick::NotTo(start);
        match first(net.links, net.ends, net.m, INCOMING, inward, i.0) {
            Found::At(e) => {
                let row = EDGE_CELLS * e.index();
                let incoming = EdgeIndex(net.links[row + INCOMING]);
                Step {
                    neighbor: Ok(NodeIndex(net.ends[row + SOURCE])),
                    walker: Walker { incoming, ..self },
                }
            }
            Found::End(e) => Step {
                neighbor: Err(Refusal::Nothing),
                walker: Walker {
                    incoming: e,
                    ..self
                },
            },
            Found::Broken => Step {
                neighbor: Err(Refusal::Broken),
                walker: self,
            },
        }
    }
}

// The weights of a node's neighbours: along its outgoing list, then along its incoming one, where self-loops are skipped.
#[tactic(auto, using(tables::proofs::Guards::guards, tables::proofs::Laws::fitting), unfolding(crate::specs::Sums::sum_around))]
pub fn sum_around(net: Network, a: NodeIndex) -> Result<i64, Refusal>
    ensures { told_summed result ≡ sum_around (net_of net.entry) a.0 }
{
    if !net.fits() {
        return Err(Refusal::Tables);
    }
    if net.n <= a.0 {
        return Err(Refusal::NoNode);
    }
    let (weights, links, ends, n, m) = (net.weights, net.links, net.ends, net.n, net.m);
    let row = NODE_CELLS * a.index();
    let e = net.heads[row + OUTGOING];
    let i = net.heads[row + INCOMING];
    let outs = sum(weights, links, ends, n, m, OUTGOING, Pick::Every, e, 0);
    let z = outs.ok_or(Refusal::Broken)?;
    let both = sum(weights, links, ends, n, m, INCOMING, Pick::NotTo(a), i, z);
    both.ok_or(Refusal::Broken)
}
