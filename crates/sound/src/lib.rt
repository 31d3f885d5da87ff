// The check: whether a network is sound, or where its first fault is.
#![tactic(auto)]

ghost use Rattle.std.specs.Prelude.{◌≡◌};
ghost use Rattle.tables.specs.Net.{net_of};
ghost use Rattle.sound.specs.Check.{checked};

use index::{EdgeDirection, NodeIndex, Refusal};
use parts::walk_lists;
use tables::Network;

pub mod parts;

// Why a network is not accepted: direction and node of its first fault, node n where some edge is in no list, answer 6; or the
// columns do not fit.
#[derive(Clone, Copy)]
pub enum Fault {
    At(EdgeDirection, NodeIndex),
    Refused(Refusal),
}

// The rows read of a sound network: the outgoing lists in node order, then the incoming ones, at most m rows of each direction.
pub fn check(net: Network) -> Result<u32, Fault>
    ensures { result ≡ checked (net_of net.entry) }
{
    if !net.fits() {
        return Err(Fault::Refused(Refusal::Tables));
    }
    let mut rows = 0;
    for d in EdgeDirection::ALL {
        let walked = walk_lists(net.heads, net.links, net.ends, net.n, net.m, d.number());
        rows += walked.map_err(|a| Fault::At(d, a))?;
    }
    Ok(rows)
}
