// The check of a network with a directory.
#![tactic(auto)]

ghost use Rattle.std.specs.Prelude.{◌≡◌};
ghost use Rattle.tables.specs.Net.{net_of};
ghost use Rattle.directory.specs.Directory.{filed};
ghost use Rattle.dirsound.specs.Check.{checked_filed};

use directory::parts::is_right;
use index::{EdgeDirection, NodeIndex};
use sound::Fault;
use tables::Network;

// The links are checked, then the directory. A fault of the directory is told at node n + 1 of the incoming lists.
pub fn check(net: Network, directory: &[u32]) -> Result<u32, Fault>
    ensures { result ≡ checked_filed (filed (net_of net.entry) directory.now) }
{
    let rows = sound::check(net)?;
    if !is_right(&net.registers[..net.m as usize], directory) {
        return Err(Fault::At(EdgeDirection::Incoming, NodeIndex(net.n + 1)));
    }
    Ok(rows)
}
