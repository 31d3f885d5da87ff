// The links to an edge found and led elsewhere, a row moved.
// A part takes the columns that it needs one by one, so that its signature says which it may change (`tables::Network`).
ghost use Rattle.std.specs.Prelude.{◌≡◌, length};
ghost use Rattle.tables.specs.Net.{loan};
ghost use Rattle.links.specs.Links.{heads_at, links_at};
ghost use Rattle.links.specs.Parts.{Start, Within, ChangesLink, ChangesLinks, Place, Places, Leads, Rows, MovesLast};

use crate::Located;
use index::{EdgeIndex, NodeIndex};
use lists::Spot;
use tables::Edge;
use tables::parts::{EDGE_CELLS, INCOMING, NODE_CELLS, OUTGOING, SOURCE, TARGET, write_edge};

// The link to e in a's list of direction k leads to v instead: where it stands, and the rows read before it. Where e is not met
// within m rows nothing changes. `first` is the head of that list: the caller reads the heads of both lists before it walks along
// one, so that neither waits for the other.
pub fn change_link(
    heads: &mut [u32],
    links: &mut [u32],
    m: u32,
    k: usize,
    a: NodeIndex,
    first: EdgeIndex,
    e: EdgeIndex,
    v: u32,
) -> Option<(Spot, u32)>
    requires { Start heads.old (length links.old) m k a.0 first.0 }
    ensures { ChangesLink (loan heads.old heads.new) (loan links.old links.new) m k a.0 e.0 v result }
{
    if first == e {
        heads[NODE_CELLS * a.index() + k] = v;
        return Some((Spot::Head(a.0), 0));
    }
    let mut link = first;
    for rows in 0..m {
        if m <= link.0 {
            return None;
        }
        let cell = EDGE_CELLS * link.index() + k;
        let next = EdgeIndex(links[cell]);
        if next == e {
            links[cell] = v;
            return Some((Spot::After(link.0), rows + 1));
        }
        link = next;
    }
    None
}

// The links to e in its source's outgoing and in its target's incoming list lead to v and to w instead; where e is not met in both, all is as it was.
pub fn change_edge_links(
    heads: &mut [u32],
    links: &mut [u32],
    ends: &[u32],
    n: u32,
    m: u32,
    e: EdgeIndex,
    v: u32,
    w: u32,
) -> Option<Located>
    requires { Within (length heads.old) (length links.old) (length ends.now) n m e.0 }
    ensures { ChangesLinks (loan heads.old heads.new) (loan links.old links.new) ends.now n m e.0 v w result }
{
    let cell = EDGE_CELLS * e.index();
    let a = NodeIndex(ends[cell + SOURCE]);
    let b = NodeIndex(ends[cell + TARGET]);
    if n <= a.0 {
        return None;
    }
    if n <= b.0 {
        return None;
    }
    let first = EdgeIndex(heads[NODE_CELLS * a.index() + OUTGOING]);
    let second = EdgeIndex(heads[NODE_CELLS * b.index() + INCOMING]);
    let (outgoing, read) = change_link(heads, links, m, OUTGOING, a, first, e, v)?;
    let Some((incoming, more)) = change_link(heads, links, m, INCOMING, b, second, e, w) else {
        relink(heads, links, OUTGOING, outgoing, e.0);
        return None;
    };
    Some(Located {
        outgoing,
        incoming,
        rows: read + more,
    })
}

// The link at a spot of direction k leads to v.
#[tactic(auto, unfolding(crate::specs::Links::heads_at, crate::specs::Links::links_at, crate::specs::Parts::Place))]
pub fn relink(heads: &mut [u32], links: &mut [u32], k: usize, spot: Spot, v: u32)
    requires { Place (length heads.old) (length links.old) k spot }
    ensures { (heads.new ≡ heads_at k spot v heads.old) × (links.new ≡ links_at k spot v links.old) }
{
    match spot {
        Spot::Head(a) => {
            heads[NODE_CELLS * (a as usize) + k] = v;
        }
        Spot::After(p) => {
            links[EDGE_CELLS * (p as usize) + k] = v;
        }
    }
}

// The outgoing link at s leads to v, the incoming one at t to w.
pub fn lead(heads: &mut [u32], links: &mut [u32], s: Spot, t: Spot, v: u32, w: u32)
    requires { Places (length heads.old) (length links.old) s t }
    ensures { Leads (loan heads.old heads.new) (loan links.old links.new) s t v w }
{
    relink(heads, links, OUTGOING, s, v);
    relink(heads, links, INCOMING, t, w);
}

// Row `last` is copied over row e, and becomes vacant.
pub fn move_last(
    registers: &mut [u32],
    links: &mut [u32],
    ends: &mut [u32],
    e: EdgeIndex,
    last: EdgeIndex,
)
    requires { Rows (length registers.old) (length links.old) (length ends.old) e.0 last.0 }
    ensures { MovesLast (loan registers.old registers.new) (loan links.old links.new) (loan ends.old ends.new) e.0 last.0 }
{
    let cell = EDGE_CELLS * last.index();
    let row = Edge {
        weight: registers[last.index()],
        outgoing: EdgeIndex(links[cell + OUTGOING]),
        incoming: EdgeIndex(links[cell + INCOMING]),
        source: NodeIndex(ends[cell + SOURCE]),
        target: NodeIndex(ends[cell + TARGET]),
    };
    write_edge(registers, links, ends, e.index(), row);
    write_edge(registers, links, ends, last.index(), Edge::vacant());
}
