// Taking an edge out of a network with a directory.
// A call that changes something takes the columns one by one, so that its signature says which (`tables::Network`).
#![tactic(auto)]

ghost use Rattle.std.specs.Prelude.{◌≡◌};
ghost use Rattle.tables.specs.Net.{entering, leaving};
ghost use Rattle.tables.specs.Answers.{out};
ghost use Rattle.removal.specs.Removal.{told_edge_removed};
ghost use Rattle.directory.specs.Directory.{filed};
ghost use Rattle.dirremoval.specs.Removal.{remove_edge_filed};

use directory::parts::named;
use index::{EdgeIndex, Refusal};
use parts::take_out;
use removal::RemovedEdge;
use tables::parts::fits;

pub mod parts;

// Takes edge e out of its two lists; the last row takes its place, and the directory follows. Where the entry of either names another row, nothing changes.
#[tactic(auto, using(tables::proofs::Guards::guards, tables::proofs::Laws::fitting, crate::proofs::Ways::by_turn))]
pub fn remove_edge(
    weights: &[i32],
    heads: &mut [u32],
    registers: &mut [u32],
    links: &mut [u32],
    ends: &mut [u32],
    n: u32,
    m: &mut u32,
    directory: &mut [u32],
    e: EdgeIndex,
) -> Result<RemovedEdge, Refusal>
    ensures { out (told_edge_removed result) (filed (leaving weights.now heads.new registers.new links.new ends.new n m.new) directory.new)
        ≡ remove_edge_filed (filed (entering weights.now heads.old registers.old links.old ends.old n m.old) directory.old) e.0 }
{
    let edges = *m;
    if !fits(weights, heads, registers, links, ends, n, edges) {
        return Err(Refusal::Tables);
    }
    if edges <= e.0 {
        return Err(Refusal::NoEdge);
    }
    if !named(registers, directory, e) {
        return Err(Refusal::Broken);
    }
    // The last row moves, and its entry with it. Where e is the last row, this is the same test again.
    if !named(registers, directory, EdgeIndex(edges - 1)) {
        return Err(Refusal::Broken);
    }
    take_out(heads, registers, links, ends, n, m, directory, e)
}
