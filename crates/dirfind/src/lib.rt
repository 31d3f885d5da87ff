// An edge updated in a network with a directory.
// A call that changes something takes the columns one by one, so that its signature says which (`tables::Network`).
#![tactic(auto)]

ghost use Rattle.std.specs.Prelude.{◌≡◌};
ghost use Rattle.tables.specs.Net.{entering, leaving};
ghost use Rattle.tables.specs.Answers.{out, told_edge};
ghost use Rattle.directory.specs.Directory.{filed};
ghost use Rattle.dirfind.specs.Find.{update_edge_filed};

use dirrows::parts::reweigh;
use find::find_edge;
use index::{EdgeIndex, NodeIndex, Refusal};
use tables::Network;

// Gives the edge that is found the register number w, even in a full table; else adds one. Either is refused for what stands against the number.
pub fn update_edge(
    weights: &[i32],
    heads: &mut [u32],
    registers: &mut [u32],
    links: &mut [u32],
    ends: &mut [u32],
    n: u32,
    m: &mut u32,
    directory: &mut [u32],
    a: NodeIndex,
    b: NodeIndex,
    w: u32,
) -> Result<EdgeIndex, Refusal>
    ensures { out (told_edge result) (filed (leaving weights.now heads.new registers.new links.new ends.new n m.new) directory.new)
        ≡ update_edge_filed (filed (entering weights.now heads.old registers.old links.old ends.old n m.old) directory.old) a.0 b.0 w }
{
    let net = Network {
        weights,
        heads,
        registers,
        links,
        ends,
        n,
        m: *m,
    };
    match find_edge(net, a, b) {
        Ok(e) => {
            reweigh(registers, directory, e, w)?;
            Ok(e)
        }
        Err(why) if why == Refusal::Broken => Err(why),
        // No edge was found; what else refuses the search refuses the new edge too.
        Err(_) => dirrows::add_edge(
            weights, heads, registers, links, ends, n, m, directory, a, b, w,
        ),
    }
}
