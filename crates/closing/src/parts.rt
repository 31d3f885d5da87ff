// What a node's removal is made of: it is stripped of its edges, then dropped.
// A part takes the columns that it needs one by one, so that its signature says which it may change (`tables::Network`).
ghost use Rattle.std.specs.Prelude.{◌≡◌, length};
ghost use Rattle.tables.specs.Net.{entering, leaving, net};
ghost use Rattle.tables.specs.Answers.{out};
ghost use Rattle.stripping.specs.Heads.{stripped};
ghost use Rattle.closing.specs.Closing.{told_node_removed, closed, closed_if_room};
ghost use Rattle.closing.specs.Parts.{Closable, Ready};

use crate::RemovedNode;
use dropping::parts::drop_node;
use index::{NodeIndex, Refusal};
use legs::parts::{along, settle};
use lists::Pick;
use stripping::parts::strip;
use tables::parts::{INCOMING, OUTGOING};

// Node a of a sound network goes, with all its edges; the table has room for their weights.
pub fn take_node(
    weights: &mut [i32],
    heads: &mut [u32],
    registers: &mut [u32],
    links: &mut [u32],
    ends: &mut [u32],
    n: &mut u32,
    m: &mut u32,
    a: NodeIndex,
    items: &mut [u32],
) -> Result<RemovedNode, Refusal>
    requires { Ready (net weights.old heads.old registers.old links.old ends.old n.old m.old) a.0 (length items.old) }
    ensures { out (told_node_removed result) (leaving weights.new heads.new registers.new links.new ends.new n.new m.new, items.new)
        ≡ closed (entering weights.old heads.old registers.old links.old ends.old n.old m.old) a.0 items.old
        (stripped (entering weights.old heads.old registers.old links.old ends.old n.old m.old) a.0) }
{
    let weight = weights[a.index()];
    let nodes = *n;
    let gone = strip(heads, registers, links, ends, nodes, m, a, items);
    let edges = *m;
    let rows = drop_node(weights, heads, links, ends, n, edges, a);
    Ok(RemovedNode {
        weight,
        rows: gone.rows + u64::from(rows),
        count: gone.count,
    })
}

// The same, unless the table is too short: the two lists are counted first, so that a refusal changes nothing.
pub fn close(
    weights: &mut [i32],
    heads: &mut [u32],
    registers: &mut [u32],
    links: &mut [u32],
    ends: &mut [u32],
    n: &mut u32,
    m: &mut u32,
    a: NodeIndex,
    items: &mut [u32],
) -> Result<RemovedNode, Refusal>
    requires { Closable (net weights.old heads.old registers.old links.old ends.old n.old m.old) a.0 }
    ensures { out (told_node_removed result) (leaving weights.new heads.new registers.new links.new ends.new n.new m.new, items.new)
        ≡ closed_if_room (entering weights.old heads.old registers.old links.old ends.old n.old m.old) a.0 items.old }
{
    let edges = *m;
    let first = along(heads, a, OUTGOING, Pick::Every);
    let second = along(heads, a, INCOMING, Pick::NotTo(a));
    let both = settle(links, ends, edges, first, second).ok_or(Refusal::Broken)?; // no list of a sound network is broken
    if items.len() < both.count as usize {
        return Err(Refusal::Short);
    }
    take_node(weights, heads, registers, links, ends, n, m, a, items)
}
