// Edges looked up and taken out by their register numbers.
// A call that changes something takes the columns one by one, so that its signature says which (`tables::Network`).
#![tactic(auto)]

ghost use Rattle.std.specs.Prelude.{◌≡◌};
ghost use Rattle.tables.specs.Net.{entering, leaving, net_of};
ghost use Rattle.tables.specs.Answers.{out, told_edge};
ghost use Rattle.removal.specs.Removal.{told_edge_removed};
ghost use Rattle.directory.specs.Directory.{filed};
ghost use Rattle.bynumber.specs.Numbers.{find_number, remove_number};

use directory::parts::{bears, entry};
use index::{EdgeIndex, Refusal};
use removal::RemovedEdge;
use tables::Network;

// The edge that bears register number r, by its entry alone; a wrong entry is not followed.
#[tactic(auto, using(tables::proofs::Guards::guards, tables::proofs::Laws::fitting, directory::proofs::Every::fronting), unfolding(crate::specs::Numbers::find_number))]
pub fn find_number(net: Network, directory: &[u32], r: u32) -> Result<EdgeIndex, Refusal>
    ensures { told_edge result ≡ find_number (filed (net_of net.entry) directory.now) r }
{
    if !net.fits() {
        return Err(Refusal::Tables);
    }
    if directory.len() <= r as usize {
        return Err(Refusal::Beyond);
    }
    let e = entry(directory, r);
    if e.is_end() {
        return Err(Refusal::Nothing);
    }
    if !bears(&net.registers[..net.m as usize], e, r as usize) {
        return Err(Refusal::Broken);
    }
    Ok(e)
}

// Takes out the edge that bears register number r; it answers as `remove_edge` does.
#[tactic(auto, unfolding(crate::specs::Numbers::remove_number))]
pub fn remove_number(
    weights: &[i32],
    heads: &mut [u32],
    registers: &mut [u32],
    links: &mut [u32],
    ends: &mut [u32],
    n: u32,
    m: &mut u32,
    directory: &mut [u32],
    r: u32,
) -> Result<RemovedEdge, Refusal>
    ensures { out (told_edge_removed result) (filed (leaving weights.now heads.new registers.new links.new ends.new n m.new) directory.new)
        ≡ remove_number (filed (entering weights.now heads.old registers.old links.old ends.old n m.old) directory.old) r }
{
    let net = Network {
        weights,
        heads,
        registers,
        links,
        ends,
        n,
        m: *m,
    };
    let e = find_number(net, directory, r)?;
    dirremoval::remove_edge(weights, heads, registers, links, ends, n, m, directory, e)
}
