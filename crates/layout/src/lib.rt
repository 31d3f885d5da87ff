// What stands where in an image: mark, version and counts, then 12 bytes a node and 20 an edge. All numbers are
// little-endian, signed ones two's complement. A number or a row is put in or read at its place by the module `parts`.
#![tactic(auto)]

ghost use Rattle.std.specs.Prelude.{◌≡◌};
ghost use Rattle.layout.specs.Numbers.{bits, signed};
ghost use Rattle.layout.specs.Layout.{image_length};

pub mod parts;

// The version that is written, and the only one that is known.
pub const VERSION: u32 = 1;

// Where the head's numbers stand after the mark, and where it ends.
pub const VERSION_AT: usize = 3;

pub const NODES_AT: usize = 5;

pub const EDGES_AT: usize = 9;

pub const HEAD_BYTES: usize = 13;

pub const NODE_BYTES: usize = 12;

pub const EDGE_BYTES: usize = 20;

// The length of an image with n nodes and m edges.
pub fn image_length(n: u32, m: u32) -> usize
    ensures { result ≡ image_length n m }
{
    HEAD_BYTES + NODE_BYTES * (n as usize) + EDGE_BYTES * (m as usize)
}

// A weight as 32 bits: a negative one is 2^32 more.
#[tactic(auto, using(crate::proofs::Complement::cast_bits))]
pub fn bits(w: i32) -> u32
    ensures { result ≡ bits w }
{
    w.cast_unsigned()
}

// The weight that 32 bits have.
#[tactic(auto, using(crate::proofs::Complement::cast_is_signed))]
pub fn signed(x: u32) -> i32
    ensures { result ≡ signed x }
{
    x.cast_signed()
}
