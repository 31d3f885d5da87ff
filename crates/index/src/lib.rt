// Numbers of nodes and edges, the two directions, and the reasons for a refusal.
#![tactic(auto)]

ghost use Rattle.std.specs.Prelude.{◌≡◌};
ghost use Rattle.index.specs.Index.{is_end, number_of, direction_of};
ghost use Rattle.index.specs.Refusals.{refusal_no};

// The number of a node row. A node number is never taken for an edge number: two types, since one that is generic over what it numbers
// would want a marker beside each number that is written down.
#[derive(Clone, Copy, PartialEq, Eq)]
pub struct NodeIndex(pub u32);

// The number of an edge row.
#[derive(Clone, Copy, PartialEq, Eq)]
pub struct EdgeIndex(pub u32);

impl NodeIndex {
    // The mark of no node, as in the ends of a vacant edge row.
    pub const END: NodeIndex = NodeIndex(4294967295);

    pub fn index(self) -> usize
        ensures { result ≡ self.0 }
    {
        self.0 as usize
    }

    pub fn is_end(self) -> bool
        ensures { result ≡ is_end self.0 }
    {
        self == NodeIndex::END
    }
}

impl EdgeIndex {
    // The mark of no edge: every list of a sound network ends at it.
    pub const END: EdgeIndex = EdgeIndex(4294967295);

    pub fn index(self) -> usize
        ensures { result ≡ self.0 }
    {
        self.0 as usize
    }

    pub fn is_end(self) -> bool
        ensures { result ≡ is_end self.0 }
    {
        self == EdgeIndex::END
    }
}

// The two lists that every node has: its edges from it, and its edges to it.
#[derive(Clone, Copy, PartialEq, Eq)]
pub enum EdgeDirection {
    Outgoing = 0,
    Incoming = 1,
}

impl EdgeDirection {
    pub const ALL: [EdgeDirection; 2] = [EdgeDirection::Outgoing, EdgeDirection::Incoming];

    // Which of a row's two cells belongs to this direction.
    pub fn number(self) -> usize
        ensures { result ≡ number_of self }
    {
        self as usize
    }
}

impl From<usize> for EdgeDirection {
    // The direction of a row's cell k: the outgoing lists come first.
    fn from(k: usize) -> EdgeDirection
        ensures { result ≡ direction_of k }
    {
        if k == 0 {
            EdgeDirection::ALL[0]
        } else {
            EdgeDirection::ALL[1]
        }
    }
}

// Why a call changes nothing. `number` has the answer number of each; those from `NotBare` on no call gives yet.
#[derive(Clone, Copy, PartialEq, Eq)]
pub enum Refusal {
    Tables = 1,
    Full = 2,
    NoNode = 3,
    NoEdge = 4,
    Nothing = 5,
    Broken = 6,
    Short = 7,
    NotImage = 8,
    Version = 9,
    NotCommand = 10,
    Taken = 11,
    Beyond = 12,
    NotBare = 13,
    NoRanking = 14,
    Outside = 15,
    TooDeep = 16,
    Fell = 17,
    Overflow = 18,
}

impl Refusal {
    pub fn number(self) -> u32
        ensures { result ≡ refusal_no self }
    {
        self as u32
    }
}
