// Rows into bytes, and bytes into rows.
// `store_rows` is lent all columns, as `TableRow::store` is; a load changes all of them.
ghost use Rattle.std.specs.Prelude.{◌≡◌, ◌+◌, ◌*◌, ◌<◌, ◌≤◌, ℕ, length};
ghost use Rattle.tables.specs.Net.{entering, leaving, net_of};
ghost use Rattle.layout.specs.Numbers.{placed};
ghost use Rattle.imagerows.specs.Image.{rows_of, image_of, each, loaded};
ghost use Rattle.imagerows.specs.Parts.{ImageHeld};

use layout::parts::put_head;
use layout::{HEAD_BYTES, NODE_BYTES};
use row::TableRow;
use tables::parts::{vacate_edges, vacate_nodes};
use tables::{Edge, Network, Node};

pub mod row;

// The first rows of a kind, one behind the other from a place on.
fn write_rows<R: TableRow>(net: Network, rows: usize, first: usize, bytes: &mut [u8])
    requires has { (i : ℕ) → i < rows → R.Has (net_of net) i }
    requires room { first + R.BYTES * rows ≤ length bytes.old }
    ensures { bytes.new ≡ placed first (rows_of (λ i. R.bytes_of (R.row_of (net_of net.entry) i)) rows) bytes.old }
{
    for i in 0..rows {
        R::of(net, i).put(bytes, first + R::BYTES * i);
    }
}

pub fn write(net: Network, bytes: &mut [u8])
    requires { let g = net_of net in
        ImageHeld (length g.weights) (length g.heads) (length g.registers) (length g.links) (length g.ends) (length bytes.old) g.n g.m }
    ensures { bytes.new ≡ placed 0 (image_of (net_of net.entry)) bytes.old }
{
    let edges_at = HEAD_BYTES + NODE_BYTES * (net.n as usize);
    put_head(bytes, net.n, net.m);
    write_rows::<Node>(net, net.n as usize, HEAD_BYTES, bytes);
    write_rows::<Edge>(net, net.m as usize, edges_at, bytes);
}

// The rows of a kind that stand from a place on become the first rows.
fn store_rows<R: TableRow>(
    weights: &mut [i32],
    heads: &mut [u32],
    registers: &mut [u32],
    links: &mut [u32],
    ends: &mut [u32],
    rows: usize,
    first: usize,
    bytes: &[u8],
)
    requires has { (i : ℕ) → i < rows → R.Has (entering weights.old heads.old registers.old links.old ends.old 0 0) i }
    requires room { first + R.BYTES * rows ≤ length bytes.now }
    ensures { (n m : ℕ) → leaving weights.new heads.new registers.new links.new ends.new n m
        ≡ each (λ g i. R.with_row g i (R.row_at bytes.now (first + R.BYTES * i))) rows (entering weights.old heads.old registers.old links.old ends.old n m) }
{
    for i in 0..rows {
        let row = R::at(bytes, first + R::BYTES * i);
        row.store(weights, heads, registers, links, ends, i);
    }
}

// The image's rows into the tables; the rows past them become vacant.
pub fn load(
    weights: &mut [i32],
    heads: &mut [u32],
    registers: &mut [u32],
    links: &mut [u32],
    ends: &mut [u32],
    n: u32,
    m: u32,
    bytes: &[u8],
)
    requires { ImageHeld (length weights.old) (length heads.old) (length registers.old) (length links.old) (length ends.old) (length bytes.now) n m }
    ensures { leaving weights.new heads.new registers.new links.new ends.new n m ≡ loaded (entering weights.old heads.old registers.old links.old ends.old n m) bytes.now n m }
{
    let nodes = weights.len();
    let edges = registers.len();
    let edges_at = HEAD_BYTES + NODE_BYTES * (n as usize);
    store_rows::<Node>(
        weights, heads, registers, links, ends, n as usize, HEAD_BYTES, bytes,
    );
    store_rows::<Edge>(
        weights, heads, registers, links, ends, m as usize, edges_at, bytes,
    );
    vacate_nodes(weights, heads, n as usize, nodes);
    vacate_edges(registers, links, ends, m as usize, edges);
}
