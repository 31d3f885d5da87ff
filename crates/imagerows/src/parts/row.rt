// A row of either kind, read from the columns and stored in them.
// `store` is lent all columns, though a row of either kind has its place in some: a trait's method has one signature.
ghost use Rattle.std.specs.Prelude.{◌≡◌, ℕ, length};
ghost use Rattle.tables.specs.Net.{Net, entering, leaving, net_of};
ghost use Rattle.tables.specs.Rows.{node_row, edge_row, with_node, with_edge};
ghost use Rattle.imagerows.specs.Parts.{HasNode, HasEdge, node_has_still, edge_has_still};

use index::{EdgeIndex, NodeIndex};
use layout::parts::Row;
use tables::parts::{
    EDGE_CELLS, INCOMING, NODE_CELLS, OUTGOING, SOURCE, TARGET, write_edge, write_node,
};
use tables::{Edge, Network, Node};

// A row that the columns hold.
pub trait TableRow: Row {
    // The columns have row i, what it is, and the network with it written.
    ghost Has: { Net → ℕ → Type 0 };

    ghost row_of: { Net → ℕ → Self };

    ghost with_row: { Net → ℕ → Self → Net };

    fn of(net: Network, i: usize) -> Self
        requires { Has (net_of net) i }
        ensures { result ≡ row_of (net_of net.entry) i };

    fn store(
        self,
        weights: &mut [i32],
        heads: &mut [u32],
        registers: &mut [u32],
        links: &mut [u32],
        ends: &mut [u32],
        i: usize,
    )
        requires { Has (entering weights.old heads.old registers.old links.old ends.old 0 0) i }
        ensures { (n m : ℕ) → leaving weights.new heads.new registers.new links.new ends.new n m
            ≡ with_row (entering weights.old heads.old registers.old links.old ends.old n m) i self };

    // A row that is written leaves the columns all their rows.
    ghost has_still: { (g : Net) (i k : ℕ) (row : Self) → Has g k → Has (with_row g i row) k };
}

impl TableRow for Node {
    ghost Has = { HasNode };

    ghost row_of = { node_row };

    ghost with_row = { with_node };

    ghost has_still = { node_has_still };

    fn of(net: Network, a: usize) -> Node {
        Node {
            weight: net.weights[a],
            outgoing: EdgeIndex(net.heads[NODE_CELLS * a + OUTGOING]),
            incoming: EdgeIndex(net.heads[NODE_CELLS * a + INCOMING]),
        }
    }

    #[tactic(auto, unfolding(tables::specs::Rows::with_node))]
    fn store(
        self,
        weights: &mut [i32],
        heads: &mut [u32],
        _registers: &mut [u32],
        _links: &mut [u32],
        _ends: &mut [u32],
        a: usize,
    ) {
        write_node(weights, heads, a, self);
    }
}

impl TableRow for Edge {
    ghost Has = { HasEdge };

    ghost row_of = { edge_row };

    ghost with_row = { with_edge };

    ghost has_still = { edge_has_still };

    fn of(net: Network, e: usize) -> Edge {
        Edge {
            weight: net.registers[e],
            outgoing: EdgeIndex(net.links[EDGE_CELLS * e + OUTGOING]),
            incoming: EdgeIndex(net.links[EDGE_CELLS * e + INCOMING]),
            source: NodeIndex(net.ends[EDGE_CELLS * e + SOURCE]),
            target: NodeIndex(net.ends[EDGE_CELLS * e + TARGET]),
        }
    }

    #[tactic(auto, unfolding(tables::specs::Rows::with_edge))]
    fn store(
        self,
        _weights: &mut [i32],
        _heads: &mut [u32],
        registers: &mut [u32],
        links: &mut [u32],
        ends: &mut [u32],
        e: usize,
    ) {
        write_edge(registers, links, ends, e, self);
    }
}
