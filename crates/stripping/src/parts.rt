// A node is stripped of its edges.
// A part takes the columns that it needs one by one, so that its signature says which it may change (`tables::Network`).
ghost use Rattle.std.specs.Prelude.{length};
ghost use Rattle.tables.specs.Net.{loan};
ghost use Rattle.stripping.specs.Parts.{Strippable, Strips};

use index::{EdgeDirection, EdgeIndex, NodeIndex};
use removal::parts::take_out;
use tables::parts::NODE_CELLS;

// The rows read, and how many weights stand in the table.
#[derive(Clone, Copy)]
pub struct Stripped {
    pub rows: u64,
    pub count: u32,
}

// Takes out the edges of node a, each from the head of its list; their weights go to the table.
// `dirstripping` has this loop with a directory. One loop over a trait of `take_out` is no plainer: each impl of it, with its eight
// parameters, is as long as the loop, and the one without a directory would be lent an empty one.
pub fn strip(
    heads: &mut [u32],
    registers: &mut [u32],
    links: &mut [u32],
    ends: &mut [u32],
    n: u32,
    m: &mut u32,
    a: NodeIndex,
    items: &mut [u32],
) -> Stripped
    requires { Strippable heads.old registers.old links.old ends.old n m.old a.0 (length items.old) }
    ensures { Strips (loan heads.old heads.new) (loan registers.old registers.new) (loan links.old links.new) (loan ends.old ends.new) n (loan m.old m.new) a.0 (loan items.old items.new) result }
{
    let mut rows: u64 = 0;
    let mut count: u32 = 0;
    for d in EdgeDirection::ALL {
        'heads: loop {
            let e = EdgeIndex(heads[NODE_CELLS * a.index() + d.number()]);
            if e.is_end() {
                break 'heads;
            }
            // A sound network refuses none.
            let Ok(gone) = take_out(heads, registers, links, ends, n, m, e) else {
                break 'heads;
            };
            items[count as usize] = gone.weight;
            count += 1;
            rows += u64::from(gone.rows);
        }
    }
    Stripped { rows, count }
}
