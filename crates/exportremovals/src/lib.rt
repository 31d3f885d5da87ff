// Removals and images for other languages. Each function passes on to the call of its name.
// The parameters are those of the function for C, which lends each column on its own.
#![tactic(auto)]

ghost use Rattle.std.specs.Prelude.{◌≡◌};
ghost use Rattle.tables.specs.Net.{entering, leaving};
ghost use Rattle.tables.specs.Answers.{out};
ghost use Rattle.removal.specs.Removal.{remove_edge};
ghost use Rattle.closing.specs.Closing.{remove_node};
ghost use Rattle.image.specs.Calls.{image_write, image_read};
ghost use Rattle.cells.specs.Told.{told};

use cells::parts::{tell, tell_change, tell_edge_removed, tell_node_removed};
use closing::remove_node;
use image::{image_read, image_write};
use index::{EdgeIndex, NodeIndex};
use removal::remove_edge;
use tables::Network;

// Takes out edge e: its weight, the old number of the row that moved into its place (`END` where none did), the rows read.
pub fn net_remove_edge(
    weights: &[i32],
    heads: &mut [u32],
    registers: &mut [u32],
    links: &mut [u32],
    ends: &mut [u32],
    n: u32,
    m: &mut u32,
    e: u32,
    weight: &mut u32,
    moved: &mut u32,
    rows: &mut u32,
) -> u32
    ensures { out (told result (weight.new, moved.new, rows.new)) (leaving weights.now heads.new registers.new links.new ends.new n m.new)
        ≡ remove_edge (entering weights.now heads.old registers.old links.old ends.old n m.old) e }
{
    let answer = remove_edge(weights, heads, registers, links, ends, n, m, EdgeIndex(e));
    tell_edge_removed(answer, weight, moved, rows)
}

// Takes out node a with its edges: its weight, the rows read, how many edge weights are in the table.
pub fn net_remove_node(
    weights: &mut [i32],
    heads: &mut [u32],
    registers: &mut [u32],
    links: &mut [u32],
    ends: &mut [u32],
    n: &mut u32,
    m: &mut u32,
    a: u32,
    items: &mut [u32],
    weight: &mut i32,
    rows: &mut u64,
    count: &mut u32,
) -> u32
    ensures { out (told result (weight.new, rows.new, count.new)) (leaving weights.new heads.new registers.new links.new ends.new n.new m.new, items.new)
        ≡ remove_node (entering weights.old heads.old registers.old links.old ends.old n.old m.old) a items.old }
{
    let answer = remove_node(
        weights,
        heads,
        registers,
        links,
        ends,
        n,
        m,
        NodeIndex(a),
        items,
    );
    tell_node_removed(answer, weight, rows, count)
}

// The image of the network; its length.
pub fn net_image_write(
    weights: &[i32],
    heads: &[u32],
    registers: &[u32],
    links: &[u32],
    ends: &[u32],
    n: u32,
    m: u32,
    bytes: &mut [u8],
    length: &mut u32,
) -> u32
    ensures { out (told result length.new) bytes.new
        ≡ image_write (entering weights.now heads.now registers.now links.now ends.now n m) bytes.old }
{
    let net = Network {
        weights,
        heads,
        registers,
        links,
        ends,
        n,
        m,
    };
    let answer = image_write(net, bytes);
    tell(answer, length)
}

// The network that an image has, in place of the one lent.
pub fn net_image_read(
    weights: &mut [i32],
    heads: &mut [u32],
    registers: &mut [u32],
    links: &mut [u32],
    ends: &mut [u32],
    n: &mut u32,
    m: &mut u32,
    bytes: &[u8],
) -> u32
    ensures { out (told result tt) (leaving weights.new heads.new registers.new links.new ends.new n.new m.new)
        ≡ image_read (entering weights.old heads.old registers.old links.old ends.old n.old m.old) bytes.now }
{
    let answer = image_read(weights, heads, registers, links, ends, n, m, bytes);
    tell_change(answer)
}
