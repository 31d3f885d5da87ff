// The commands of a script: each makes one call of the library, and replies what it answers.
// A call that changes something takes the columns one by one, so that its signature says which (`tables::Network`).
#![tactic(auto)]

ghost use Rattle.std.specs.Prelude.{◌≡◌};
ghost use Rattle.tables.specs.Net.{entering, leaving, net_of};
ghost use Rattle.legs.specs.Legs.{tables3};
ghost use Rattle.commands.specs.Commands.{replied, add_node_line, add_edge_line, update_edge_line, find_edge_line, remove_edge_line, remove_node_line};
ghost use Rattle.commands.specs.Commands.{neighbors_line, edges_line, edges_mut_line, edges_between_line, sum_around_line, check_line, clear_edges_line, clear_line};

use closing::remove_node;
use find::{find_edge, update_edge};
use index::{EdgeIndex, NodeIndex};
use parts::{check_reply, node_removed_reply, reply_of};
use removal::remove_edge;
use reply::Reply;
use rows::{add_edge, add_node, clear, clear_edges};
use sound::check;
use tables::Network;
use walker::sum_around;
use walks::{edges, edges_between, edges_mut, neighbors};

pub mod parts;

// N w: one more node; its number.
#[tactic(auto, using(crate::proofs::Laws::answers_told), unfolding(crate::specs::Commands::add_node_line))]
pub fn add_node_line(
    weights: &mut [i32],
    heads: &mut [u32],
    registers: &[u32],
    links: &[u32],
    ends: &[u32],
    n: &mut u32,
    m: u32,
    w: i32,
) -> Reply
    ensures { replied result (leaving weights.new heads.new registers.now links.now ends.now n.new m)
        ≡ add_node_line (entering weights.old heads.old registers.now links.now ends.now n.old m) w }
{
    let answer = add_node(weights, heads, registers, links, ends, n, m, w);
    reply_of(b'N', answer)
}

// E a b w: one more edge; its number.
#[tactic(auto, using(crate::proofs::Laws::answers_told), unfolding(crate::specs::Commands::add_edge_line))]
pub fn add_edge_line(
    weights: &[i32],
    heads: &mut [u32],
    registers: &mut [u32],
    links: &mut [u32],
    ends: &mut [u32],
    n: u32,
    m: &mut u32,
    a: u32,
    b: u32,
    w: u32,
) -> Reply
    ensures { replied result (leaving weights.now heads.new registers.new links.new ends.new n m.new)
        ≡ add_edge_line (entering weights.now heads.old registers.old links.old ends.old n m.old) a b w }
{
    let answer = add_edge(
        weights,
        heads,
        registers,
        links,
        ends,
        n,
        m,
        NodeIndex(a),
        NodeIndex(b),
        w,
    );
    reply_of(b'E', answer)
}

// U a b w: the edge between two nodes gets a weight, or one is added; its number.
#[tactic(auto, using(crate::proofs::Laws::answers_told), unfolding(crate::specs::Commands::update_edge_line))]
pub fn update_edge_line(
    weights: &[i32],
    heads: &mut [u32],
    registers: &mut [u32],
    links: &mut [u32],
    ends: &mut [u32],
    n: u32,
    m: &mut u32,
    a: u32,
    b: u32,
    w: u32,
) -> Reply
    ensures { replied result (leaving weights.now heads.new registers.new links.new ends.new n m.new)
        ≡ update_edge_line (entering weights.now heads.old registers.old links.old ends.old n m.old) a b w }
{
    let answer = update_edge(
        weights,
        heads,
        registers,
        links,
        ends,
        n,
        m,
        NodeIndex(a),
        NodeIndex(b),
        w,
    );
    reply_of(b'U', answer)
}

// F a b: the number of the edge between two nodes.
#[tactic(auto, using(crate::proofs::Laws::answers_told), unfolding(crate::specs::Commands::find_edge_line))]
pub fn find_edge_line(net: Network, a: u32, b: u32) -> Reply
    ensures { result ≡ find_edge_line (net_of net.entry) a b }
{
    let answer = find_edge(net, NodeIndex(a), NodeIndex(b));
    reply_of(b'F', answer)
}

// X e: an edge taken out; its weight, the old number of the row that moved, the rows read.
#[tactic(auto, using(crate::proofs::Laws::answers_told), unfolding(crate::specs::Commands::remove_edge_line))]
pub fn remove_edge_line(
    weights: &[i32],
    heads: &mut [u32],
    registers: &mut [u32],
    links: &mut [u32],
    ends: &mut [u32],
    n: u32,
    m: &mut u32,
    e: u32,
) -> Reply
    ensures { replied result (leaving weights.now heads.new registers.new links.new ends.new n m.new)
        ≡ remove_edge_line (entering weights.now heads.old registers.old links.old ends.old n m.old) e }
{
    let answer = remove_edge(weights, heads, registers, links, ends, n, m, EdgeIndex(e));
    reply_of(b'X', answer)
}

// D a: a node taken out; its weight, the rows read, the weights of its edges.
#[tactic(auto, unfolding(crate::specs::Commands::remove_node_line))]
pub fn remove_node_line(
    weights: &mut [i32],
    heads: &mut [u32],
    registers: &mut [u32],
    links: &mut [u32],
    ends: &mut [u32],
    n: &mut u32,
    m: &mut u32,
    a: u32,
    items: &mut [u32],
) -> Reply
    ensures { replied result (leaving weights.new heads.new registers.new links.new ends.new n.new m.new, items.new)
        ≡ remove_node_line (entering weights.old heads.old registers.old links.old ends.old n.old m.old) a items.old }
{
    let answer = remove_node(
        weights,
        heads,
        registers,
        links,
        ends,
        n,
        m,
        NodeIndex(a),
        items,
    );
    node_removed_reply(b'D', answer)
}

// W a: the neighbours of a node.
#[tactic(auto, using(crate::proofs::Laws::answers_told), unfolding(crate::specs::Commands::neighbors_line))]
pub fn neighbors_line(net: Network, a: u32, items: &mut [u32]) -> Reply
    ensures { replied result items.new ≡ neighbors_line (net_of net.entry) a items.old }
{
    let answer = neighbors(net, NodeIndex(a), items);
    reply_of(b'W', answer)
}

// G a: the numbers of its edges; their ends go to two more tables, which no line tells.
#[tactic(auto, using(crate::proofs::Laws::answers_told), unfolding(crate::specs::Commands::edges_line))]
pub fn edges_line(
    net: Network,
    a: u32,
    items: &mut [u32],
    sources: &mut [u32],
    targets: &mut [u32],
) -> Reply
    ensures { replied result (tables3 items.new sources.new targets.new)
        ≡ edges_line (net_of net.entry) a (tables3 items.old sources.old targets.old) }
{
    let answer = edges(net, NodeIndex(a), items, sources, targets);
    reply_of(b'G', answer)
}

// M a: the same in the order of `edges_mut`.
#[tactic(auto, using(crate::proofs::Laws::answers_told), unfolding(crate::specs::Commands::edges_mut_line))]
pub fn edges_mut_line(net: Network, a: u32, items: &mut [u32]) -> Reply
    ensures { replied result items.new ≡ edges_mut_line (net_of net.entry) a items.old }
{
    let answer = edges_mut(net, NodeIndex(a), items);
    reply_of(b'M', answer)
}

// B a b: the numbers of the edges between two nodes.
#[tactic(auto, using(crate::proofs::Laws::answers_told), unfolding(crate::specs::Commands::edges_between_line))]
pub fn edges_between_line(net: Network, a: u32, b: u32, items: &mut [u32]) -> Reply
    ensures { replied result items.new ≡ edges_between_line (net_of net.entry) a b items.old }
{
    let answer = edges_between(net, NodeIndex(a), NodeIndex(b), items);
    reply_of(b'B', answer)
}

// A a: the sum around a node.
#[tactic(auto, using(crate::proofs::Laws::answers_told), unfolding(crate::specs::Commands::sum_around_line))]
pub fn sum_around_line(net: Network, a: u32) -> Reply
    ensures { result ≡ sum_around_line (net_of net.entry) a }
{
    let answer = sum_around(net, NodeIndex(a));
    reply_of(b'A', answer)
}

// S: the check; the rows read.
#[tactic(auto, unfolding(crate::specs::Commands::check_line))]
pub fn check_line(net: Network) -> Reply
    ensures { result ≡ check_line (net_of net.entry) }
{
    let answer = check(net);
    check_reply(b'S', answer)
}

// C: all edges taken out.
#[tactic(auto, using(crate::proofs::Laws::answers_told), unfolding(crate::specs::Commands::clear_edges_line))]
pub fn clear_edges_line(
    weights: &[i32],
    heads: &mut [u32],
    registers: &mut [u32],
    links: &mut [u32],
    ends: &mut [u32],
    n: u32,
    m: &mut u32,
) -> Reply
    ensures { replied result (leaving weights.now heads.new registers.new links.new ends.new n m.new)
        ≡ clear_edges_line (entering weights.now heads.old registers.old links.old ends.old n m.old) }
{
    let answer = clear_edges(weights, heads, registers, links, ends, n, m);
    reply_of(b'C', answer)
}

// Z: all nodes and edges taken out.
#[tactic(auto, using(crate::proofs::Laws::answers_told), unfolding(crate::specs::Commands::clear_line))]
pub fn clear_line(
    weights: &mut [i32],
    heads: &mut [u32],
    registers: &mut [u32],
    links: &mut [u32],
    ends: &mut [u32],
    n: &mut u32,
    m: &mut u32,
) -> Reply
    ensures { replied result (leaving weights.new heads.new registers.new links.new ends.new n.new m.new)
        ≡ clear_line (entering weights.old heads.old registers.old links.old ends.old n.old m.old) }
{
    let answer = clear(weights, heads, registers, links, ends, n, m);
    reply_of(b'Z', answer)
}
