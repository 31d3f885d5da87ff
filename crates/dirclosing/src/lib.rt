// Taking a node out of a network with a directory.
// A call that changes something takes the columns one by one, so that its signature says which (`tables::Network`).
#![tactic(auto)]

ghost use Rattle.std.specs.Prelude.{◌≡◌};
ghost use Rattle.tables.specs.Net.{entering, leaving};
ghost use Rattle.tables.specs.Answers.{out};
ghost use Rattle.closing.specs.Closing.{told_node_removed};
ghost use Rattle.directory.specs.Directory.{filed};
ghost use Rattle.dirclosing.specs.Closing.{remove_node_filed};

use closing::RemovedNode;
use index::{NodeIndex, Refusal};
use parts::{removable, take_node};
use tables::Network;

pub mod parts;

// Takes out node a with all its edges; the last node takes its place. Only a sound network with a right directory is changed.
pub fn remove_node(
    weights: &mut [i32],
    heads: &mut [u32],
    registers: &mut [u32],
    links: &mut [u32],
    ends: &mut [u32],
    n: &mut u32,
    m: &mut u32,
    directory: &mut [u32],
    a: NodeIndex,
    items: &mut [u32],
) -> Result<RemovedNode, Refusal>
    ensures { out (told_node_removed result) (filed (leaving weights.new heads.new registers.new links.new ends.new n.new m.new) directory.new, items.new)
        ≡ remove_node_filed (filed (entering weights.old heads.old registers.old links.old ends.old n.old m.old) directory.old) a.0 items.old }
{
    let net = Network {
        weights,
        heads,
        registers,
        links,
        ends,
        n: *n,
        m: *m,
    };
    removable(net, directory, a, items)?;
    Ok(take_node(
        weights, heads, registers, links, ends, n, m, directory, a, items,
    ))
}
