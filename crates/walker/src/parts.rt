// What the sum is made of: one list of it, in direction k, from a link on.
ghost use Rattle.std.specs.Prelude.{◌≡◌, length};
ghost use Rattle.walker.specs.Sums.{Sums, Tallies};

use index::{EdgeIndex, NodeIndex};
use lists::Pick;
use lists::parts::picks;
use tables::parts::EDGE_CELLS;

// The weights of the far ends that the walk takes, on top of `before`, where the list ends and none of them is missing.
pub fn sum(
    weights: &[i32],
    links: &[u32],
    ends: &[u32],
    n: u32,
    m: u32,
    k: usize,
    pick: Pick,
    link: u32,
    before: i64,
) -> Option<i64>
    requires { Sums (length weights.now) (length links.now) (length ends.now) n m k before }
    ensures { Tallies weights.now links.now ends.now n m k pick link before result }
{
    let far = 1 - k;
    let mut e = link;
    let mut rows = 0;
    let mut total = before;
    // No `for _ in 0..m`, as in `lists::parts::first`: the end of the list would be tested in two places.
    while e < m {
        if rows == m {
            return None;
        }
        let row = EDGE_CELLS * EdgeIndex(e).index();
        let b = NodeIndex(ends[row + far]);
        if picks(pick, b) {
            if n <= b.0 {
                return None;
            }
            total += weights[b.index()] as i64;
        }
        e = links[row + k];
        rows += 1;
    }
    Some(total)
}
