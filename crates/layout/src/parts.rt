// Numbers and rows, put in at a place of an image or read there.
ghost use Rattle.std.specs.Prelude.{◌≡◌, ◌+◌, ◌≤◌, ℕ, List, length};
ghost use Rattle.layout.specs.Numbers.{le, number_at, placed};
ghost use Rattle.layout.specs.Layout.{mark, head, head_bytes, node_bytes, edge_bytes, marked, node_at, edge_at};
ghost use Rattle.layout.specs.Lengths.{node-length, edge-length};

use crate::{EDGE_BYTES, EDGES_AT, NODE_BYTES, NODES_AT, VERSION, VERSION_AT, bits, signed};
use index::{EdgeIndex, NodeIndex};
use tables::{Edge, Node};

const IMAGE_MARK: [u8; 3] = *b"WNT";

#[tactic(auto, using(crate::proofs::Placing::part_placed))]
fn put_bytes(bytes: &mut [u8], at: usize, xs: &[u8])
    requires { at + length xs.now ≤ length bytes.old }
    ensures { bytes.new ≡ placed at xs.now bytes.old }
{
    bytes[at..at + xs.len()].copy_from_slice(xs);
}

// A number in K bytes, the lowest first.
#[tactic(auto, using(crate::proofs::Placing::low_bytes))]
pub fn put_number<const K: usize>(bytes: &mut [u8], at: usize, x: u32)
    requires wide { K ≤ 4 }
    requires room { at + K ≤ length bytes.old }
    ensures { bytes.new ≡ placed at (le K x) bytes.old }
{
    put_bytes(bytes, at, &x.to_le_bytes()[..K]);
}

// The number that K bytes have.
#[tactic(auto, using(crate::proofs::Placing::part_number))]
pub fn number_at<const K: usize>(bytes: &[u8], at: usize) -> u32
    requires wide { K ≤ 4 }
    requires room { at + K ≤ length bytes.now }
    ensures { result ≡ number_at K bytes.now at }
{
    let mut low = [0; 4];
    low[..K].copy_from_slice(&bytes[at..at + K]);
    u32::from_le_bytes(low)
}

// Mark, version, n and m.
#[tactic(auto, using(crate::proofs::Placing::placements))]
pub fn put_head(bytes: &mut [u8], n: u32, m: u32)
    requires { head_bytes ≤ length bytes.old }
    ensures { bytes.new ≡ placed 0 (head n m) bytes.old }
{
    put_bytes(bytes, 0, &IMAGE_MARK);
    put_number::<2>(bytes, VERSION_AT, VERSION);
    put_number::<4>(bytes, NODES_AT, n);
    put_number::<4>(bytes, EDGES_AT, m);
}

#[tactic(auto, using(crate::proofs::Placing::starts_marked))]
pub fn marked(bytes: &[u8]) -> bool
    requires { 3 ≤ length bytes.now }
    ensures { result ≡ marked bytes.now }
{
    bytes.starts_with(&IMAGE_MARK)
}

// A row that stands in an image as BYTES bytes.
pub trait Row: Copy {
    ghost BYTES: { ℕ };

    // The bytes of a row, and the row that stands at a place.
    ghost bytes_of: { Self → List ℕ };

    ghost row_at: { List ℕ → ℕ → Self };

    const BYTES: usize;

    fn put(self, bytes: &mut [u8], at: usize)
        requires { at + BYTES ≤ length bytes.old }
        ensures { bytes.new ≡ placed at (bytes_of self) bytes.old };

    fn at(bytes: &[u8], at: usize) -> Self
        requires { at + BYTES ≤ length bytes.now }
        ensures { result ≡ row_at bytes.now at };

    ghost bytes_length: { (row : Self) → length (bytes_of row) ≡ BYTES };
}

impl Row for Node {
    ghost BYTES = { 12 };

    ghost bytes_of = { node_bytes };

    ghost row_at = { node_at };

    ghost bytes_length = { node-length };

    const BYTES: usize = NODE_BYTES;

    fn put(self, bytes: &mut [u8], at: usize) {
        put_number::<4>(bytes, at, bits(self.weight));
        put_number::<4>(bytes, at + 4, self.outgoing.0);
        put_number::<4>(bytes, at + 8, self.incoming.0);
    }

    #[tactic(auto, unfolding(crate::specs::Layout::node_at))]
    fn at(bytes: &[u8], at: usize) -> Node {
        Node {
            weight: signed(number_at::<4>(bytes, at)),
            outgoing: EdgeIndex(number_at::<4>(bytes, at + 4)),
            incoming: EdgeIndex(number_at::<4>(bytes, at + 8)),
        }
    }
}

impl Row for Edge {
    ghost BYTES = { 20 };

    ghost bytes_of = { edge_bytes };

    ghost row_at = { edge_at };

    ghost bytes_length = { edge-length };

    const BYTES: usize = EDGE_BYTES;

    #[tactic(auto, using(crate::proofs::Placing::placements))]
    fn put(self, bytes: &mut [u8], at: usize) {
        put_number::<4>(bytes, at, self.weight);
        put_number::<4>(bytes, at + 4, self.outgoing.0);
        put_number::<4>(bytes, at + 8, self.incoming.0);
        put_number::<4>(bytes, at + 12, self.source.0);
        put_number::<4>(bytes, at + 16, self.target.0);
    }

    #[tactic(auto, unfolding(crate::specs::Layout::edge_at))]
    fn at(bytes: &[u8], at: usize) -> Edge {
        Edge {
            weight: number_at::<4>(bytes, at),
            outgoing: EdgeIndex(number_at::<4>(bytes, at + 4)),
            incoming: EdgeIndex(number_at::<4>(bytes, at + 8)),
            source: NodeIndex(number_at::<4>(bytes, at + 12)),
            target: NodeIndex(number_at::<4>(bytes, at + 16)),
        }
    }
}
