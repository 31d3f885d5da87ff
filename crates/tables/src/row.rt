// A row of the network, as it is read and written whole.
ghost use Rattle.std.specs.Prelude.{◌≡◌};
ghost use Rattle.tables.specs.Rows.{bare, vacant_edge};

use index::{EdgeIndex, NodeIndex};

// A catchment: its total, its first outgoing and its first incoming edge.
#[derive(Clone, Copy)]
pub struct Node {
    pub weight: i32,
    pub outgoing: EdgeIndex,
    pub incoming: EdgeIndex,
}

// A waterway: its register number, the next edge of its source's outgoing and of its target's incoming list, its ends.
#[derive(Clone, Copy)]
pub struct Edge {
    pub weight: u32,
    pub outgoing: EdgeIndex,
    pub incoming: EdgeIndex,
    pub source: NodeIndex,
    pub target: NodeIndex,
}

impl Node {
    // A node with no edges.
    pub fn bare(weight: i32) -> Node
        ensures { result ≡ bare weight }
    {
        Node {
            weight,
            outgoing: EdgeIndex::END,
            incoming: EdgeIndex::END,
        }
    }
}

impl Edge {
    // What a row holds that no edge is in.
    pub fn vacant() -> Edge
        ensures { result ≡ vacant_edge }
    {
        Edge {
            weight: 0,
            outgoing: EdgeIndex::END,
            incoming: EdgeIndex::END,
            source: NodeIndex::END,
            target: NodeIndex::END,
        }
    }
}
