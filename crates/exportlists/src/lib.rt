// Lists for other languages: walks, searches, the walker, the sum, the check. Each function passes on to the call of its name.
// The parameters are those of the function for C, which lends each column on its own.
#![tactic(auto)]

ghost use Rattle.std.specs.Prelude.{◌≡◌};
ghost use Rattle.tables.specs.Net.{entering, leaving};
ghost use Rattle.tables.specs.Answers.{out};
ghost use Rattle.legs.specs.Legs.{tables3};
ghost use Rattle.walks.specs.Walks.{neighbors, edges, edge_weights, edges_between, edges_mut};
ghost use Rattle.find.specs.Find.{find_edge, contains_edge, update_edge};
ghost use Rattle.walker.specs.Steps.{begin, step};
ghost use Rattle.walker.specs.Sums.{sum_around};
ghost use Rattle.sound.specs.Check.{checked, told_checked};
ghost use Rattle.cells.specs.Told.{told, walker_in, told_in_cells, left_in_cells};

use cells::parts::{tell, tell_check, tell_step, tell_walker, walker_in};
use find::{contains_edge, find_edge, update_edge};
use index::NodeIndex;
use sound::check;
use tables::Network;
use walker::{Walker, sum_around};
use walks::{edge_weights, edge_weights_mut, edges, edges_between, edges_mut, neighbors};

// The neighbours of node a; how many.
pub fn net_neighbors(
    weights: &[i32],
    heads: &[u32],
    registers: &[u32],
    links: &[u32],
    ends: &[u32],
    n: u32,
    m: u32,
    a: u32,
    items: &mut [u32],
    count: &mut u32,
) -> u32
    ensures { out (told result count.new) items.new
        ≡ neighbors (entering weights.now heads.now registers.now links.now ends.now n m) a items.old }
{
    let net = Network {
        weights,
        heads,
        registers,
        links,
        ends,
        n,
        m,
    };
    tell(neighbors(net, NodeIndex(a), items), count)
}

// The register numbers of the same edges; how many.
pub fn net_edge_weights(
    weights: &[i32],
    heads: &[u32],
    registers: &[u32],
    links: &[u32],
    ends: &[u32],
    n: u32,
    m: u32,
    a: u32,
    items: &mut [u32],
    count: &mut u32,
) -> u32
    ensures { out (told result count.new) items.new
        ≡ edge_weights (entering weights.now heads.now registers.now links.now ends.now n m) a items.old }
{
    let net = Network {
        weights,
        heads,
        registers,
        links,
        ends,
        n,
        m,
    };
    tell(edge_weights(net, NodeIndex(a), items), count)
}

// The numbers of those whose far end is b; how many.
pub fn net_edges_between(
    weights: &[i32],
    heads: &[u32],
    registers: &[u32],
    links: &[u32],
    ends: &[u32],
    n: u32,
    m: u32,
    a: u32,
    b: u32,
    items: &mut [u32],
    count: &mut u32,
) -> u32
    ensures { out (told result count.new) items.new
        ≡ edges_between (entering weights.now heads.now registers.now links.now ends.now n m) a b items.old }
{
    let net = Network {
        weights,
        heads,
        registers,
        links,
        ends,
        n,
        m,
    };
    tell(edges_between(net, NodeIndex(a), NodeIndex(b), items), count)
}

// The numbers of all edges of node a, incoming ones first; how many.
pub fn net_edges_mut(
    weights: &[i32],
    heads: &[u32],
    registers: &[u32],
    links: &[u32],
    ends: &[u32],
    n: u32,
    m: u32,
    a: u32,
    items: &mut [u32],
    count: &mut u32,
) -> u32
    ensures { out (told result count.new) items.new
        ≡ edges_mut (entering weights.now heads.now registers.now links.now ends.now n m) a items.old }
{
    let net = Network {
        weights,
        heads,
        registers,
        links,
        ends,
        n,
        m,
    };
    tell(edges_mut(net, NodeIndex(a), items), count)
}

// The rows of the mutable weights: those of `edges_mut`.
pub fn net_edge_weights_mut(
    weights: &[i32],
    heads: &[u32],
    registers: &[u32],
    links: &[u32],
    ends: &[u32],
    n: u32,
    m: u32,
    a: u32,
    items: &mut [u32],
    count: &mut u32,
) -> u32
    ensures { out (told result count.new) items.new
        ≡ edges_mut (entering weights.now heads.now registers.now links.now ends.now n m) a items.old }
{
    let net = Network {
        weights,
        heads,
        registers,
        links,
        ends,
        n,
        m,
    };
    tell(edge_weights_mut(net, NodeIndex(a), items), count)
}

// Number, source and target of each edge of the neighbour walk; how many.
pub fn net_edges(
    weights: &[i32],
    heads: &[u32],
    registers: &[u32],
    links: &[u32],
    ends: &[u32],
    n: u32,
    m: u32,
    a: u32,
    numbers: &mut [u32],
    sources: &mut [u32],
    targets: &mut [u32],
    count: &mut u32,
) -> u32
    ensures { out (told result count.new) (tables3 numbers.new sources.new targets.new)
        ≡ edges (entering weights.now heads.now registers.now links.now ends.now n m) a (tables3 numbers.old sources.old targets.old) }
{
    let net = Network {
        weights,
        heads,
        registers,
        links,
        ends,
        n,
        m,
    };
    let answer = edges(net, NodeIndex(a), numbers, sources, targets);
    tell(answer, count)
}

// The first edge of a whose far end is b.
pub fn net_find_edge(
    weights: &[i32],
    heads: &[u32],
    registers: &[u32],
    links: &[u32],
    ends: &[u32],
    n: u32,
    m: u32,
    a: u32,
    b: u32,
    edge: &mut u32,
) -> u32
    ensures { told result edge.new ≡ find_edge (entering weights.now heads.now registers.now links.now ends.now n m) a b }
{
    let net = Network {
        weights,
        heads,
        registers,
        links,
        ends,
        n,
        m,
    };
    tell(find_edge(net, NodeIndex(a), NodeIndex(b)), edge)
}

// 1 where there is such an edge, else 0.
pub fn net_contains_edge(
    weights: &[i32],
    heads: &[u32],
    registers: &[u32],
    links: &[u32],
    ends: &[u32],
    n: u32,
    m: u32,
    a: u32,
    b: u32,
    found: &mut u32,
) -> u32
    ensures { told result found.new ≡ contains_edge (entering weights.now heads.now registers.now links.now ends.now n m) a b }
{
    let net = Network {
        weights,
        heads,
        registers,
        links,
        ends,
        n,
        m,
    };
    tell(contains_edge(net, NodeIndex(a), NodeIndex(b)), found)
}

// Sets the weight of the edge that is found, or adds one; its number.
pub fn net_update_edge(
    weights: &[i32],
    heads: &mut [u32],
    registers: &mut [u32],
    links: &mut [u32],
    ends: &mut [u32],
    n: u32,
    m: &mut u32,
    a: u32,
    b: u32,
    w: u32,
    edge: &mut u32,
) -> u32
    ensures { out (told result edge.new) (leaving weights.now heads.new registers.new links.new ends.new n m.new)
        ≡ update_edge (entering weights.now heads.old registers.old links.old ends.old n m.old) a b w }
{
    let (a, b) = (NodeIndex(a), NodeIndex(b));
    let answer = update_edge(weights, heads, registers, links, ends, n, m, a, b, w);
    tell(answer, edge)
}

// The sum of the totals of the neighbours of node a.
pub fn net_sum_around(
    weights: &[i32],
    heads: &[u32],
    registers: &[u32],
    links: &[u32],
    ends: &[u32],
    n: u32,
    m: u32,
    a: u32,
    sum: &mut i64,
) -> u32
    ensures { told result sum.new ≡ sum_around (entering weights.now heads.now registers.now links.now ends.now n m) a }
{
    let net = Network {
        weights,
        heads,
        registers,
        links,
        ends,
        n,
        m,
    };
    tell(sum_around(net, NodeIndex(a)), sum)
}

// The rows read of a sound network; at 6 direction and node of the first fault.
pub fn net_check(
    weights: &[i32],
    heads: &[u32],
    registers: &[u32],
    links: &[u32],
    ends: &[u32],
    n: u32,
    m: u32,
    rows: &mut u32,
    direction: &mut u32,
    node: &mut u32,
) -> u32
    ensures { told result (rows.new, direction.new, node.new) ≡ told_checked (checked (entering weights.now heads.now registers.now links.now ends.now n m)) }
{
    let net = Network {
        weights,
        heads,
        registers,
        links,
        ends,
        n,
        m,
    };
    tell_check(check(net), rows, direction, node)
}

// A walker at the heads of node a's two lists: the node, its next outgoing and its next incoming edge.
pub fn net_walker_new(
    weights: &[i32],
    heads: &[u32],
    registers: &[u32],
    links: &[u32],
    ends: &[u32],
    n: u32,
    m: u32,
    a: u32,
    walker: &mut [u32; 3],
) -> u32
    ensures { told result walker.new ≡ told_in_cells (begin (entering weights.now heads.now registers.now links.now ends.now n m) a) }
{
    let net = Network {
        weights,
        heads,
        registers,
        links,
        ends,
        n,
        m,
    };
    tell_walker(Walker::new(net, NodeIndex(a)), walker)
}

// The lent walker, moved on by one neighbour.
pub fn net_walker_next(
    weights: &[i32],
    heads: &[u32],
    registers: &[u32],
    links: &[u32],
    ends: &[u32],
    n: u32,
    m: u32,
    walker: &mut [u32; 3],
    neighbor: &mut u32,
) -> u32
    ensures { out (told result neighbor.new) walker.new
        ≡ left_in_cells (step (entering weights.now heads.now registers.now links.now ends.now n m) (walker_in walker.old)) }
{
    let net = Network {
        weights,
        heads,
        registers,
        links,
        ends,
        n,
        m,
    };
    let step = walker_in(walker).step(net);
    tell_step(step, walker, neighbor)
}
