// What the check is made of: one list, and all lists of one direction.
// A part takes the columns that it reads and no others: the whole network, as `tables::Network`, would ask more of its callers.
ghost use Rattle.std.specs.Prelude.{◌≡◌, length};
ghost use Rattle.lists.specs.Walk.{cell, link_in};
ghost use Rattle.sound.specs.Check.{node_walked, one_way};
ghost use Rattle.sound.specs.Parts.{Held, Begins};

use index::{EdgeIndex, NodeIndex};
use tables::parts::{EDGE_CELLS, NODE_CELLS};

// Node a's list in direction k, with `read` rows of that direction read before it: the rows read then, or a, where it has a fault.
// The count runs on through all lists of a direction: sound lists have m rows together, so after m rows there is nothing but `END`.
// A `for` over the rows would be no plainer: it ends where the list does or where the rows do, and each end has the test for `END`.
pub fn walk_list(
    heads: &[u32],
    links: &[u32],
    ends: &[u32],
    m: u32,
    k: usize,
    a: NodeIndex,
    read: u32,
) -> Result<u32, NodeIndex>
    requires { Begins (length heads.now) (length links.now) (length ends.now) m k a.0 read }
    ensures { result ≡ node_walked (link_in heads.now links.now k) (cell ends.now k) m a.0 read }
{
    let mut e = EdgeIndex(heads[NODE_CELLS * a.index() + k]);
    let mut rows = read;
    while e.0 < m {
        if rows == m {
            return Err(a);
        }
        let row = EDGE_CELLS * e.index();
        if NodeIndex(ends[row + k]) != a {
            return Err(a);
        }
        e = EdgeIndex(links[row + k]);
        rows += 1;
    }
    if e != EdgeIndex::END {
        return Err(a);
    }
    Ok(rows)
}

// The lists of direction k in node order: the rows read, or the first node with a fault, n where some edge is in no list. They have
// every edge where they have m rows.
pub fn walk_lists(
    heads: &[u32],
    links: &[u32],
    ends: &[u32],
    n: u32,
    m: u32,
    k: usize,
) -> Result<u32, NodeIndex>
    requires { Held (length heads.now) (length links.now) (length ends.now) n m k }
    ensures { result ≡ one_way (link_in heads.now links.now k) (cell ends.now k) n m }
{
    let mut rows = 0;
    for a in 0..n {
        rows = walk_list(heads, links, ends, m, k, NodeIndex(a), rows)?;
    }
    if rows == m {
        Ok(rows)
    } else {
        Err(NodeIndex(n))
    }
}
