// Rows for other languages: looked up, set, added, listed, cleared. Each function passes on to the call of its name.
// The parameters are those of the function for C, which lends each column on its own.
#![tactic(auto)]

ghost use Rattle.std.specs.Prelude.{◌≡◌};
ghost use Rattle.index.specs.Index.{direction_of};
ghost use Rattle.tables.specs.Net.{entering, leaving};
ghost use Rattle.tables.specs.Answers.{out};
ghost use Rattle.lookups.specs.Lookups.{node_weight, edge_weight, edge_endpoints, first_edge, next_edge, set_node_weight, set_edge_weight};
ghost use Rattle.rows.specs.Calls.{add_node, add_edge, all_edge_weights, clear, clear_edges};
ghost use Rattle.cells.specs.Told.{told};

use cells::parts::{tell, tell_change, tell_ends};
use index::{EdgeDirection, EdgeIndex, NodeIndex};
use lookups::{
    edge_endpoints, edge_weight, first_edge, next_edge, node_weight, set_edge_weight,
    set_node_weight,
};
use rows::{add_edge, add_node, all_edge_weights, clear, clear_edges};
use tables::Network;

// The total of node a.
pub fn net_node_weight(
    weights: &[i32],
    heads: &[u32],
    registers: &[u32],
    links: &[u32],
    ends: &[u32],
    n: u32,
    m: u32,
    a: u32,
    weight: &mut i32,
) -> u32
    ensures { told result weight.new ≡ node_weight (entering weights.now heads.now registers.now links.now ends.now n m) a }
{
    let net = Network {
        weights,
        heads,
        registers,
        links,
        ends,
        n,
        m,
    };
    tell(node_weight(net, NodeIndex(a)), weight)
}

// The register number of edge e.
pub fn net_edge_weight(
    weights: &[i32],
    heads: &[u32],
    registers: &[u32],
    links: &[u32],
    ends: &[u32],
    n: u32,
    m: u32,
    e: u32,
    weight: &mut u32,
) -> u32
    ensures { told result weight.new ≡ edge_weight (entering weights.now heads.now registers.now links.now ends.now n m) e }
{
    let net = Network {
        weights,
        heads,
        registers,
        links,
        ends,
        n,
        m,
    };
    tell(edge_weight(net, EdgeIndex(e)), weight)
}

// Source and target of edge e.
pub fn net_edge_endpoints(
    weights: &[i32],
    heads: &[u32],
    registers: &[u32],
    links: &[u32],
    ends: &[u32],
    n: u32,
    m: u32,
    e: u32,
    source: &mut u32,
    target: &mut u32,
) -> u32
    ensures { told result (source.new, target.new) ≡ edge_endpoints (entering weights.now heads.now registers.now links.now ends.now n m) e }
{
    let net = Network {
        weights,
        heads,
        registers,
        links,
        ends,
        n,
        m,
    };
    tell_ends(edge_endpoints(net, EdgeIndex(e)), source, target)
}

// The first edge of node a in a direction: 0 is outgoing, any other number incoming.
pub fn net_first_edge(
    weights: &[i32],
    heads: &[u32],
    registers: &[u32],
    links: &[u32],
    ends: &[u32],
    n: u32,
    m: u32,
    a: u32,
    direction: u32,
    edge: &mut u32,
) -> u32
    ensures { told result edge.new ≡ first_edge (entering weights.now heads.now registers.now links.now ends.now n m) a (direction_of direction) }
{
    let net = Network {
        weights,
        heads,
        registers,
        links,
        ends,
        n,
        m,
    };
    let direction = EdgeDirection::from(direction as usize);
    tell(first_edge(net, NodeIndex(a), direction), edge)
}

// The edge after edge e in a direction.
pub fn net_next_edge(
    weights: &[i32],
    heads: &[u32],
    registers: &[u32],
    links: &[u32],
    ends: &[u32],
    n: u32,
    m: u32,
    e: u32,
    direction: u32,
    edge: &mut u32,
) -> u32
    ensures { told result edge.new ≡ next_edge (entering weights.now heads.now registers.now links.now ends.now n m) e (direction_of direction) }
{
    let net = Network {
        weights,
        heads,
        registers,
        links,
        ends,
        n,
        m,
    };
    let direction = EdgeDirection::from(direction as usize);
    tell(next_edge(net, EdgeIndex(e), direction), edge)
}

// Sets the total of node a.
pub fn net_set_node_weight(
    weights: &mut [i32],
    heads: &[u32],
    registers: &[u32],
    links: &[u32],
    ends: &[u32],
    n: u32,
    m: u32,
    a: u32,
    w: i32,
) -> u32
    ensures { out (told result tt) (leaving weights.new heads.now registers.now links.now ends.now n m)
        ≡ set_node_weight (entering weights.old heads.now registers.now links.now ends.now n m) a w }
{
    let answer = set_node_weight(
        weights,
        heads,
        registers,
        links,
        ends,
        n,
        m,
        NodeIndex(a),
        w,
    );
    tell_change(answer)
}

// Sets the register number of edge e.
pub fn net_set_edge_weight(
    weights: &[i32],
    heads: &[u32],
    registers: &mut [u32],
    links: &[u32],
    ends: &[u32],
    n: u32,
    m: u32,
    e: u32,
    w: u32,
) -> u32
    ensures { out (told result tt) (leaving weights.now heads.now registers.new links.now ends.now n m)
        ≡ set_edge_weight (entering weights.now heads.now registers.old links.now ends.now n m) e w }
{
    let answer = set_edge_weight(
        weights,
        heads,
        registers,
        links,
        ends,
        n,
        m,
        EdgeIndex(e),
        w,
    );
    tell_change(answer)
}

// One more node; its number.
pub fn net_add_node(
    weights: &mut [i32],
    heads: &mut [u32],
    registers: &[u32],
    links: &[u32],
    ends: &[u32],
    n: &mut u32,
    m: u32,
    w: i32,
    node: &mut u32,
) -> u32
    ensures { out (told result node.new) (leaving weights.new heads.new registers.now links.now ends.now n.new m)
        ≡ add_node (entering weights.old heads.old registers.now links.now ends.now n.old m) w }
{
    let answer = add_node(weights, heads, registers, links, ends, n, m, w);
    tell(answer, node)
}

// One more edge; its number.
pub fn net_add_edge(
    weights: &[i32],
    heads: &mut [u32],
    registers: &mut [u32],
    links: &mut [u32],
    ends: &mut [u32],
    n: u32,
    m: &mut u32,
    a: u32,
    b: u32,
    w: u32,
    edge: &mut u32,
) -> u32
    ensures { out (told result edge.new) (leaving weights.now heads.new registers.new links.new ends.new n m.new)
        ≡ add_edge (entering weights.now heads.old registers.old links.old ends.old n m.old) a b w }
{
    let answer = add_edge(
        weights,
        heads,
        registers,
        links,
        ends,
        n,
        m,
        NodeIndex(a),
        NodeIndex(b),
        w,
    );
    tell(answer, edge)
}

// The register numbers of all edges, in row order; how many.
pub fn net_all_edge_weights(
    weights: &[i32],
    heads: &[u32],
    registers: &[u32],
    links: &[u32],
    ends: &[u32],
    n: u32,
    m: u32,
    items: &mut [u32],
    count: &mut u32,
) -> u32
    ensures { out (told result count.new) items.new
        ≡ all_edge_weights (entering weights.now heads.now registers.now links.now ends.now n m) items.old }
{
    let net = Network {
        weights,
        heads,
        registers,
        links,
        ends,
        n,
        m,
    };
    tell(all_edge_weights(net, items), count)
}

// No edges left.
pub fn net_clear_edges(
    weights: &[i32],
    heads: &mut [u32],
    registers: &mut [u32],
    links: &mut [u32],
    ends: &mut [u32],
    n: u32,
    m: &mut u32,
) -> u32
    ensures { out (told result tt) (leaving weights.now heads.new registers.new links.new ends.new n m.new)
        ≡ clear_edges (entering weights.now heads.old registers.old links.old ends.old n m.old) }
{
    let answer = clear_edges(weights, heads, registers, links, ends, n, m);
    tell_change(answer)
}

// Nothing left.
pub fn net_clear(
    weights: &mut [i32],
    heads: &mut [u32],
    registers: &mut [u32],
    links: &mut [u32],
    ends: &mut [u32],
    n: &mut u32,
    m: &mut u32,
) -> u32
    ensures { out (told result tt) (leaving weights.new heads.new registers.new links.new ends.new n.new m.new)
        ≡ clear (entering weights.old heads.old registers.old links.old ends.old n.old m.old) }
{
    let answer = clear(weights, heads, registers, links, ends, n, m);
    tell_change(answer)
}
