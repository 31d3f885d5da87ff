// What a node's removal is made of: the tests, which change nothing; then it is stripped of its edges, and the directory follows; then it is dropped, which
// no entry has a part in.
// A part takes the columns that it needs one by one, so that its signature says which it may change (`tables::Network`).
ghost use Rattle.std.specs.Prelude.{◌≡◌, length};
ghost use Rattle.tables.specs.Net.{entering, leaving, net, net_of};
ghost use Rattle.directory.specs.Directory.{filed};
ghost use Rattle.stripping.specs.Heads.{stripped};
ghost use Rattle.closing.specs.Closing.{closed};
ghost use Rattle.dirrows.specs.Parts.{claim_no};
ghost use Rattle.dirclosing.specs.Closing.{remove_node_filed};
ghost use Rattle.dirclosing.specs.Parts.{ReadyFiled, ClosesFiled};

use closing::RemovedNode;
use dirsound::check;
use dirstripping::parts::strip;
use dropping::parts::drop_node;
use index::{NodeIndex, Refusal};
use legs::parts::{along, settle};
use lists::Pick;
use tables::Network;
use tables::parts::{INCOMING, OUTGOING};

// What refuses the removal of node a: 1, 3, 6, 7. The edges of its two lists are counted first, so that a refusal changes nothing.
#[tactic(auto, unfolding(crate::specs::Closing::remove_node_filed))]
pub fn removable(
    net: Network,
    directory: &[u32],
    a: NodeIndex,
    items: &[u32],
) -> Result<(), Refusal>
    ensures { claim_no result ≡ (remove_node_filed (filed (net_of net.entry) directory.now) a.0 items.now).answer.number }
{
    if !net.fits() {
        return Err(Refusal::Tables);
    }
    if net.n <= a.0 {
        return Err(Refusal::NoNode);
    }
    if check(net, directory).is_err() {
        return Err(Refusal::Broken);
    }
    let first = along(net.heads, a, OUTGOING, Pick::Every);
    let second = along(net.heads, a, INCOMING, Pick::NotTo(a));
    let both = settle(net.links, net.ends, net.m, first, second).ok_or(Refusal::Broken)?; // no list of a sound network is broken
    if items.len() < both.count as usize {
        return Err(Refusal::Short);
    }
    Ok(())
}

// Node a of a sound network with a right directory goes, with all its edges; the table has room for their weights. As `closing` has it, with
// another `strip`: a trait of that for one call each would be no plainer.
pub fn take_node(
    weights: &mut [i32],
    heads: &mut [u32],
    registers: &mut [u32],
    links: &mut [u32],
    ends: &mut [u32],
    n: &mut u32,
    m: &mut u32,
    directory: &mut [u32],
    a: NodeIndex,
    items: &mut [u32],
) -> RemovedNode
    requires { ReadyFiled (filed (net weights.old heads.old registers.old links.old ends.old n.old m.old) directory.old) a.0 (length items.old) }
    ensures { ClosesFiled (length directory.old) (Ok result) (leaving weights.new heads.new registers.new links.new ends.new n.new m.new) items.new directory.new
        (closed (entering weights.old heads.old registers.old links.old ends.old n.old m.old) a.0 items.old
        (stripped (entering weights.old heads.old registers.old links.old ends.old n.old m.old) a.0)) }
{
    let weight = weights[a.index()];
    let gone = strip(heads, registers, links, ends, *n, m, directory, a, items);
    let rows = drop_node(weights, heads, links, ends, n, *m, a);
    RemovedNode {
        weight,
        rows: gone.rows + u64::from(rows),
        count: gone.count,
    }
}
