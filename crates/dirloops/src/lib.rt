// The bench's loops on a network with a directory, beside those of `loops`: one call from C for many operations.
// The parameters are those of the function for C, which lends each column on its own. Each loop stands beside that of `loops` as `dirstripping`'s
// does beside that of `stripping`: another call, and a column more.
#![tactic(auto)]

ghost use Rattle.std.specs.Prelude.{◌≡◌};
ghost use Rattle.tables.specs.Net.{entering, leaving};
ghost use Rattle.directory.specs.Directory.{filed};
ghost use Rattle.loops.specs.Loops.{sums};
ghost use Rattle.dirloops.specs.Loops.{add_edges_filed, find_numbers, remove_numbers};

use bynumber::{find_number, remove_number};
use dirrows::add_edge;
use index::NodeIndex;
use loops::parts::adds;
use tables::Network;

// An edge for each row of three cells: source, target, register number.
#[tactic(auto, unfolding(loops::specs::Loops::calls))]
pub fn loop_dir_add_edges(
    weights: &[i32],
    heads: &mut [u32],
    registers: &mut [u32],
    links: &mut [u32],
    ends: &mut [u32],
    n: u32,
    m: &mut u32,
    directory: &mut [u32],
    edges: &[u32],
) -> u64
    ensures { sums result (filed (leaving weights.now heads.new registers.new links.new ends.new n m.new) directory.new)
        ≡ add_edges_filed (filed (entering weights.now heads.old registers.old links.old ends.old n m.old) directory.old) edges.now }
{
    let mut sum: u64 = 0;
    let (rows, _) = edges.as_chunks::<3>();
    for &[a, b, w] in rows {
        let (a, b) = (NodeIndex(a), NodeIndex(b));
        let answer = add_edge(
            weights, heads, registers, links, ends, n, m, directory, a, b, w,
        );
        sum = sum.wrapping_add(adds(answer));
    }
    sum
}

// The edge that bears each number.
#[tactic(auto, unfolding(loops::specs::Loops::calls))]
pub fn loop_find_numbers(
    weights: &[i32],
    heads: &[u32],
    registers: &[u32],
    links: &[u32],
    ends: &[u32],
    n: u32,
    m: u32,
    directory: &[u32],
    numbers: &[u32],
) -> u64
    ensures { result ≡ find_numbers (filed (entering weights.now heads.now registers.now links.now ends.now n m) directory.now) numbers.now }
{
    let net = Network {
        weights,
        heads,
        registers,
        links,
        ends,
        n,
        m,
    };
    let mut sum: u64 = 0;
    for &r in numbers {
        let answer = find_number(net, directory, r);
        sum = sum.wrapping_add(adds(answer));
    }
    sum
}

// Takes out the edge that bears each number.
#[tactic(auto, unfolding(loops::specs::Loops::calls))]
pub fn loop_remove_numbers(
    weights: &[i32],
    heads: &mut [u32],
    registers: &mut [u32],
    links: &mut [u32],
    ends: &mut [u32],
    n: u32,
    m: &mut u32,
    directory: &mut [u32],
    numbers: &[u32],
) -> u64
    ensures { sums result (filed (leaving weights.now heads.new registers.new links.new ends.new n m.new) directory.new)
        ≡ remove_numbers (filed (entering weights.now heads.old registers.old links.old ends.old n m.old) directory.old) numbers.now }
{
    let mut sum: u64 = 0;
    for &r in numbers {
        let answer = remove_number(weights, heads, registers, links, ends, n, m, directory, r);
        sum = sum.wrapping_add(adds(answer));
    }
    sum
}
