// Taking an edge out of a network.
// A call that changes something takes the columns one by one, so that its signature says which (`tables::Network`).
#![tactic(auto)]

ghost use Rattle.std.specs.Prelude.{◌≡◌};
ghost use Rattle.tables.specs.Net.{entering, leaving};
ghost use Rattle.tables.specs.Answers.{out};
ghost use Rattle.removal.specs.Removal.{remove_edge, told_edge_removed};

use index::{EdgeIndex, Refusal};
use parts::take_out;
pub use removed::RemovedEdge;
use tables::parts::fits;

pub mod parts;
pub mod removed;

// Takes edge e out of its two lists; the last row takes its place.
#[tactic(auto, using(tables::proofs::Guards::guards, tables::proofs::Laws::fitting), unfolding(crate::specs::Removal::remove_edge))]
pub fn remove_edge(
    weights: &[i32],
    heads: &mut [u32],
    registers: &mut [u32],
    links: &mut [u32],
    ends: &mut [u32],
    n: u32,
    m: &mut u32,
    e: EdgeIndex,
) -> Result<RemovedEdge, Refusal>
    ensures { out (told_edge_removed result) (leaving weights.now heads.new registers.new links.new ends.new n m.new)
        ≡ remove_edge (entering weights.now heads.old registers.old links.old ends.old n m.old) e.0 }
{
    let edges = *m;
    if !fits(weights, heads, registers, links, ends, n, edges) {
        return Err(Refusal::Tables);
    }
    if edges <= e.0 {
        return Err(Refusal::NoEdge);
    }
    take_out(heads, registers, links, ends, n, m, e)
}
