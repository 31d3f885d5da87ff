// What the walks are made of. Each goes along one list, in direction k, from a link on.
// A part takes the columns that it reads and no others: the whole network, as `tables::Network`, would ask more of its callers.
ghost use Rattle.std.specs.Prelude.{◌≡◌, length, map};
ghost use Rattle.lists.specs.Walk.{picked, rows_from, taken_from, stop_from, item_of};
ghost use Rattle.tables.specs.Answers.{out, done};
ghost use Rattle.lists.specs.Parts.{first_of, extents_of, written, Links, Edges, Known, Gives, HasRow};

use crate::{Found, Item, Pick};
use index::{EdgeIndex, NodeIndex};
use tables::parts::EDGE_CELLS;

// Whether a walk takes a row with that far end.
pub fn picks(pick: Pick, far: NodeIndex) -> bool
    ensures { result ≡ picked pick far.0 }
{
    match pick {
        Pick::Every => true,
        Pick::To(b) => far == b,
        Pick::NotTo(a) => far != a,
        Pick::ToNot(b, a) => far != a && far == b,
    }
}

// The first row from `link` on that the walk takes.
pub fn first(links: &[u32], ends: &[u32], m: u32, k: usize, pick: Pick, link: u32) -> Found
    requires { Edges (length links.now) (length ends.now) m k }
    ensures { result ≡ first_of (taken_from links.now ends.now m k pick link) m (stop_from links.now m k link) }
{
    let far = 1 - k;
    let mut e = link;
    let mut rows = 0;
    // No `for _ in 0..m`: a list of m rows is at its end behind the last turn, so that its end would be tested in two places.
    loop {
        if m <= e {
            break Found::End(EdgeIndex(e));
        }
        if rows == m {
            break Found::Broken;
        }
        let row = EDGE_CELLS * EdgeIndex(e).index();
        if picks(pick, NodeIndex(ends[row + far])) {
            break Found::At(EdgeIndex(e));
        }
        e = links[row + k];
        rows += 1;
    }
}

// How many rows there are from `link` on in direction k, and how many from `other` on in direction j, where both lists end within m rows.
// The second list is gone along beside the first, so that neither waits for the other's links.
pub fn count_both(
    links: &[u32],
    m: u32,
    k: usize,
    link: u32,
    j: usize,
    other: u32,
) -> Option<(u32, u32)>
    requires { Links (length links.now) m k × Links (length links.now) m j }
    ensures { result ≡ extents_of (rows_from links.now m k link) (stop_from links.now m k link)
        (rows_from links.now m j other) (stop_from links.now m j other) m }
{
    let mut e = link;
    let mut f = other;
    let mut rows = 0;
    let mut others = 0;
    // No `for`, as in `first`.
    while e < m {
        if rows == m {
            return None;
        }
        e = links[EDGE_CELLS * EdgeIndex(e).index() + k];
        rows += 1;
        if f < m {
            f = links[EDGE_CELLS * EdgeIndex(f).index() + j];
            others += 1;
        }
    }
    while f < m {
        if others == m {
            return None;
        }
        f = links[EDGE_CELLS * EdgeIndex(f).index() + j];
        others += 1;
    }
    Some((rows, others))
}

// How many of the `rows` rows from `link` on the walk takes.
pub fn count_taken(
    links: &[u32],
    ends: &[u32],
    m: u32,
    k: usize,
    pick: Pick,
    link: u32,
    rows: u32,
) -> u32
    requires { Known links.now ends.now m k link rows }
    ensures { result ≡ length (taken_from links.now ends.now m k pick link) }
{
    let far = 1 - k;
    let mut e = link;
    let mut taken = 0;
    for _ in 0..rows {
        let row = EDGE_CELLS * EdgeIndex(e).index();
        if picks(pick, NodeIndex(ends[row + far])) {
            taken += 1;
        }
        e = links[row + k];
    }
    taken
}

// What the walk gives for row e.
fn value(registers: &[u32], ends: &[u32], k: usize, item: Item, e: EdgeIndex) -> u32
    requires { HasRow (length registers.now) (length ends.now) k e.0 }
    ensures { result ≡ item_of registers.now ends.now item k e.0 }
{
    let row = EDGE_CELLS * e.index();
    match item {
        Item::Number => e.0,
        Item::Near => ends[row + k],
        Item::Far => ends[row + (1 - k)],
        Item::Weight => registers[e.index()],
    }
}

// The items that the walk gives for the `rows` rows from `link` on, to the front of a table that has room for them; tells how many they are.
pub fn give(
    registers: &[u32],
    links: &[u32],
    ends: &[u32],
    m: u32,
    k: usize,
    pick: Pick,
    item: Item,
    link: u32,
    rows: u32,
    items: &mut [u32],
) -> usize
    requires { Gives registers.now links.now ends.now m k pick link rows (length items.old) }
    ensures { out (done result) items.new
        ≡ written (map (item_of registers.now ends.now item k) (taken_from links.now ends.now m k pick link)) items.old }
{
    let far = 1 - k;
    let mut e = link;
    // It moves on only at a row that is taken, so it is no index of the loop.
    let mut at = 0;
    for _ in 0..rows {
        let row = EDGE_CELLS * EdgeIndex(e).index();
        if picks(pick, NodeIndex(ends[row + far])) {
            items[at] = value(registers, ends, k, item, EdgeIndex(e));
            at += 1;
        }
        e = links[row + k];
    }
    at
}
