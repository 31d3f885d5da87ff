// What the calls are made of: the tests, which change nothing, and the change of a number.
// A part takes the columns that it needs one by one, so that its signature says which it may change (`tables::Network`).
ghost use Rattle.std.specs.Prelude.{◌≡◌, ◌<◌, length};
ghost use Rattle.tables.specs.Net.{net_of, loan};
ghost use Rattle.dirrows.specs.Calls.{claimed};
ghost use Rattle.dirrows.specs.Parts.{Adds, Reweighs};

use directory::parts::{enter, entry, named};
use index::{EdgeIndex, NodeIndex, Refusal};
use tables::Network;

// What refuses a new edge from a to b, whatever its number: 1, 2, 3.
#[tactic(auto, unfolding(rows::specs::Calls::add_edge))]
pub fn addable(net: Network, a: NodeIndex, b: NodeIndex) -> Result<(), Refusal>
    ensures { Adds (net_of net.entry) a.0 b.0 result }
{
    if !net.fits() {
        return Err(Refusal::Tables);
    }
    if net.registers.len() <= net.m as usize {
        return Err(Refusal::Full);
    }
    if net.n <= a.0 {
        return Err(Refusal::NoNode);
    }
    if net.n <= b.0 {
        return Err(Refusal::NoNode);
    }
    Ok(())
}

// What refuses number w to row e: 12, 11. A row that is yet to come is asked for as `END`: no entry is its own.
#[tactic(auto, unfolding(crate::specs::Calls::claimed))]
pub fn free_for(directory: &[u32], w: u32, e: EdgeIndex) -> Result<(), Refusal>
    ensures { result ≡ claimed directory.now w e.0 }
{
    if directory.len() <= w as usize {
        return Err(Refusal::Beyond);
    }
    let x = entry(directory, w);
    if x.is_end() || x == e {
        return Ok(());
    }
    Err(Refusal::Taken)
}

// Row e gets number w, and its entry moves; refused 6, 12, 11.
pub fn reweigh(
    registers: &mut [u32],
    directory: &mut [u32],
    e: EdgeIndex,
    w: u32,
) -> Result<(), Refusal>
    requires { e.0 < length registers.old }
    ensures { Reweighs (loan registers.old registers.new) (loan directory.old directory.new) e.0 w result }
{
    if !named(registers, directory, e) {
        return Err(Refusal::Broken);
    }
    free_for(directory, w, e)?;
    // The old entry goes first: w may be the number that the row bears already.
    enter(directory, registers[e.index()], EdgeIndex::END);
    enter(directory, w, e);
    registers[e.index()] = w;
    Ok(())
}
