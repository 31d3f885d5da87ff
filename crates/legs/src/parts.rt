// What a walk is made of: two legs, one after the other.
// A part takes the columns that it reads and no others: the whole network, as `tables::Network`, would ask more of its callers.
ghost use Rattle.std.specs.Prelude.{◌≡◌, ◌<◌, length};
ghost use Rattle.tables.specs.Net.{node_cell};
ghost use Rattle.tables.specs.Answers.{out, done, told_items};
ghost use Rattle.lists.specs.Parts.{written, Known};
ghost use Rattle.legs.specs.Legs.{leg_at, legs_give, legs_told, edges_told, tables3, settled, prepared, leg_takes, Legs, Ready};

use index::{NodeIndex, Refusal};
use lists::parts::{count_both, count_taken, give};
use lists::{Item, Pick};
use tables::parts::NODE_CELLS;

// One direction from a link on, and which rows the walk takes.
#[derive(Clone, Copy)]
pub struct Leg {
    pub k: usize,
    pub pick: Pick,
    pub link: u32,
}

// The leg from the head of a's list in direction k.
pub fn along(heads: &[u32], a: NodeIndex, k: usize, pick: Pick) -> Leg
    requires { node_cell a.0 k < length heads.now }
    ensures { result ≡ leg_at heads.now k pick a.0 }
{
    Leg {
        k,
        pick,
        link: heads[NODE_CELLS * a.index() + k],
    }
}

// Two legs counted: the rows of the first, its items, the rows of the second, the items of both.
#[derive(Clone, Copy)]
pub struct Settled {
    pub rows: u32,
    pub taken: u32,
    pub others: u32,
    pub count: u32,
}

// How many of its `rows` rows a leg takes.
fn taken(links: &[u32], ends: &[u32], m: u32, leg: Leg, rows: u32) -> u32
    requires { Known links.now ends.now m leg.k leg.link rows }
    ensures { result ≡ length (leg_takes links.now ends.now m leg) }
{
    count_taken(links, ends, m, leg.k, leg.pick, leg.link, rows)
}

// Goes along both lists, where both end, and counts what the legs take of them.
pub fn settle(links: &[u32], ends: &[u32], m: u32, first: Leg, second: Leg) -> Option<Settled>
    requires { Legs m (length links.now) (length ends.now) m first second }
    ensures { result ≡ settled links.now ends.now m first second }
{
    let (rows, others) = count_both(links, m, first.k, first.link, second.k, second.link)?;
    let mid = taken(links, ends, m, first, rows);
    let more = taken(links, ends, m, second, others);
    Some(Settled {
        rows,
        taken: mid,
        others,
        count: mid + more,
    })
}

// Two legs before anything is written: the rows of the first, the rows of the second.
#[derive(Clone, Copy)]
pub struct Prepared {
    pub rows: u32,
    pub others: u32,
}

// Goes along both lists: each must end, and a table of `room` cells must hold what the legs give.
fn prepare(
    links: &[u32],
    ends: &[u32],
    m: u32,
    first: Leg,
    second: Leg,
    room: usize,
) -> Result<Prepared, Refusal>
    requires { Legs m (length links.now) (length ends.now) m first second }
    ensures { result ≡ prepared links.now ends.now m first second room }
{
    let extents = count_both(links, m, first.k, first.link, second.k, second.link);
    let (rows, others) = extents.ok_or(Refusal::Broken)?; // before 7
    // There are no more items than rows, so they are counted for a shorter table alone.
    if room < rows as usize + others as usize {
        let mid = taken(links, ends, m, first, rows);
        let more = taken(links, ends, m, second, others);
        if room < mid as usize + more as usize {
            return Err(Refusal::Short);
        }
    }
    Ok(Prepared { rows, others })
}

// The items of two legs whose rows are known, to the front of a table that has room for them; tells how many they are.
pub fn give_both(
    registers: &[u32],
    links: &[u32],
    ends: &[u32],
    m: u32,
    item: Item,
    first: Leg,
    second: Leg,
    both: Prepared,
    items: &mut [u32],
) -> usize
    requires { Ready registers.now links.now ends.now m first both.rows second both.others (length items.old) }
    ensures { out (done result) items.new
        ≡ written (legs_give registers.now links.now ends.now m item first second) items.old }
{
    let (k, pick, link) = (first.k, first.pick, first.link);
    let mid = give(
        registers, links, ends, m, k, pick, item, link, both.rows, items,
    );
    let (k, pick, link) = (second.k, second.pick, second.link);
    let rest = &mut items[mid..];
    mid + give(
        registers,
        links,
        ends,
        m,
        k,
        pick,
        item,
        link,
        both.others,
        rest,
    )
}

// Two legs of a walk into one output table.
pub fn walk(
    registers: &[u32],
    links: &[u32],
    ends: &[u32],
    m: u32,
    item: Item,
    first: Leg,
    second: Leg,
    items: &mut [u32],
) -> Result<u32, Refusal>
    requires { Legs (length registers.now) (length links.now) (length ends.now) m first second }
    ensures { out (told_items result) items.new
        ≡ legs_told registers.now links.now ends.now m item first second items.old }
{
    let both = prepare(links, ends, m, first, second, items.len())?;
    let count = give_both(registers, links, ends, m, item, first, second, both, items);
    Ok(count as u32)
}

// Two legs into three output tables: number, near end and far end of each row. C lends each table on its own.
pub fn walk_edges(
    registers: &[u32],
    links: &[u32],
    ends: &[u32],
    m: u32,
    first: Leg,
    second: Leg,
    numbers: &mut [u32],
    sources: &mut [u32],
    targets: &mut [u32],
) -> Result<u32, Refusal>
    requires { Legs (length registers.now) (length links.now) (length ends.now) m first second }
    ensures { out (told_items result) (tables3 numbers.new sources.new targets.new)
        ≡ edges_told registers.now links.now ends.now m first second
        (tables3 numbers.old sources.old targets.old) }
{
    let room = numbers.len().min(sources.len()).min(targets.len());
    let both = prepare(links, ends, m, first, second, room)?;
    give_both(
        registers,
        links,
        ends,
        m,
        Item::Number,
        first,
        second,
        both,
        numbers,
    );
    give_both(
        registers,
        links,
        ends,
        m,
        Item::Near,
        first,
        second,
        both,
        sources,
    );
    let count = give_both(
        registers,
        links,
        ends,
        m,
        Item::Far,
        first,
        second,
        both,
        targets,
    );
    Ok(count as u32)
}
