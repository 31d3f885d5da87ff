// The calls with a directory for other languages. Each function passes on to the call of its name.
// The parameters are those of the function for C, which lends each column on its own.
#![tactic(auto)]

ghost use Rattle.std.specs.Prelude.{◌≡◌};
ghost use Rattle.tables.specs.Net.{entering, leaving};
ghost use Rattle.tables.specs.Answers.{out};
ghost use Rattle.sound.specs.Check.{told_checked};
ghost use Rattle.directory.specs.Directory.{filed};
ghost use Rattle.dirsound.specs.Check.{checked_filed};
ghost use Rattle.dirrows.specs.Calls.{add_edge_filed, set_edge_weight_filed, clear_edges_filed, clear_filed};
ghost use Rattle.dirfind.specs.Find.{update_edge_filed};
ghost use Rattle.dirremoval.specs.Removal.{remove_edge_filed};
ghost use Rattle.dirclosing.specs.Closing.{remove_node_filed};
ghost use Rattle.dirimage.specs.Calls.{image_write_filed, image_read_filed};
ghost use Rattle.bynumber.specs.Numbers.{find_number, remove_number};
ghost use Rattle.cells.specs.Told.{told};

use bynumber::{find_number, remove_number};
use cells::parts::{tell, tell_change, tell_check, tell_edge_removed, tell_node_removed};
use dirclosing::remove_node;
use dirfind::update_edge;
use dirimage::{image_read, image_write};
use dirremoval::remove_edge;
use dirrows::{add_edge, clear, clear_edges, set_edge_weight};
use dirsound::check;
use index::{EdgeIndex, NodeIndex};
use tables::Network;

// Accepts exactly the sound networks with a right directory; at 6 the place of the first fault, which for the directory is incoming, n + 1.
pub fn net_dir_check(
    weights: &[i32],
    heads: &[u32],
    registers: &[u32],
    links: &[u32],
    ends: &[u32],
    n: u32,
    m: u32,
    directory: &[u32],
    rows: &mut u32,
    direction: &mut u32,
    node: &mut u32,
) -> u32
    ensures { told result (rows.new, direction.new, node.new)
        ≡ told_checked (checked_filed (filed (entering weights.now heads.now registers.now links.now ends.now n m) directory.now)) }
{
    let net = Network {
        weights,
        heads,
        registers,
        links,
        ends,
        n,
        m,
    };
    let answer = check(net, directory);
    tell_check(answer, rows, direction, node)
}

// One more edge from a to b; its number.
pub fn net_dir_add_edge(
    weights: &[i32],
    heads: &mut [u32],
    registers: &mut [u32],
    links: &mut [u32],
    ends: &mut [u32],
    n: u32,
    m: &mut u32,
    directory: &mut [u32],
    a: u32,
    b: u32,
    w: u32,
    edge: &mut u32,
) -> u32
    ensures { out (told result edge.new) (filed (leaving weights.now heads.new registers.new links.new ends.new n m.new) directory.new)
        ≡ add_edge_filed (filed (entering weights.now heads.old registers.old links.old ends.old n m.old) directory.old) a b w }
{
    let answer = add_edge(
        weights,
        heads,
        registers,
        links,
        ends,
        n,
        m,
        directory,
        NodeIndex(a),
        NodeIndex(b),
        w,
    );
    tell(answer, edge)
}

// Sets the weight of the edge that is found, else adds one; its number.
pub fn net_dir_update_edge(
    weights: &[i32],
    heads: &mut [u32],
    registers: &mut [u32],
    links: &mut [u32],
    ends: &mut [u32],
    n: u32,
    m: &mut u32,
    directory: &mut [u32],
    a: u32,
    b: u32,
    w: u32,
    edge: &mut u32,
) -> u32
    ensures { out (told result edge.new) (filed (leaving weights.now heads.new registers.new links.new ends.new n m.new) directory.new)
        ≡ update_edge_filed (filed (entering weights.now heads.old registers.old links.old ends.old n m.old) directory.old) a b w }
{
    let answer = update_edge(
        weights,
        heads,
        registers,
        links,
        ends,
        n,
        m,
        directory,
        NodeIndex(a),
        NodeIndex(b),
        w,
    );
    tell(answer, edge)
}

// Sets the weight of edge e, and moves its entry.
pub fn net_dir_set_edge_weight(
    weights: &[i32],
    heads: &[u32],
    registers: &mut [u32],
    links: &[u32],
    ends: &[u32],
    n: u32,
    m: u32,
    directory: &mut [u32],
    e: u32,
    w: u32,
) -> u32
    ensures { out (told result tt) (filed (leaving weights.now heads.now registers.new links.now ends.now n m) directory.new)
        ≡ set_edge_weight_filed (filed (entering weights.now heads.now registers.old links.now ends.now n m) directory.old) e w }
{
    let answer = set_edge_weight(
        weights,
        heads,
        registers,
        links,
        ends,
        n,
        m,
        directory,
        EdgeIndex(e),
        w,
    );
    tell_change(answer)
}

// Takes out edge e: its weight, the old number of the row that moved into its place (`END` where none did), the rows read.
pub fn net_dir_remove_edge(
    weights: &[i32],
    heads: &mut [u32],
    registers: &mut [u32],
    links: &mut [u32],
    ends: &mut [u32],
    n: u32,
    m: &mut u32,
    directory: &mut [u32],
    e: u32,
    weight: &mut u32,
    moved: &mut u32,
    rows: &mut u32,
) -> u32
    ensures { out (told result (weight.new, moved.new, rows.new)) (filed (leaving weights.now heads.new registers.new links.new ends.new n m.new) directory.new)
        ≡ remove_edge_filed (filed (entering weights.now heads.old registers.old links.old ends.old n m.old) directory.old) e }
{
    let answer = remove_edge(
        weights,
        heads,
        registers,
        links,
        ends,
        n,
        m,
        directory,
        EdgeIndex(e),
    );
    tell_edge_removed(answer, weight, moved, rows)
}

// Takes out node a with its edges: its weight, the rows read, how many edge weights are in the table.
pub fn net_dir_remove_node(
    weights: &mut [i32],
    heads: &mut [u32],
    registers: &mut [u32],
    links: &mut [u32],
    ends: &mut [u32],
    n: &mut u32,
    m: &mut u32,
    directory: &mut [u32],
    a: u32,
    items: &mut [u32],
    weight: &mut i32,
    rows: &mut u64,
    count: &mut u32,
) -> u32
    ensures { out (told result (weight.new, rows.new, count.new))
        (filed (leaving weights.new heads.new registers.new links.new ends.new n.new m.new) directory.new, items.new)
        ≡ remove_node_filed (filed (entering weights.old heads.old registers.old links.old ends.old n.old m.old) directory.old) a items.old }
{
    let answer = remove_node(
        weights,
        heads,
        registers,
        links,
        ends,
        n,
        m,
        directory,
        NodeIndex(a),
        items,
    );
    tell_node_removed(answer, weight, rows, count)
}

// Takes out all edges; no number stands in any row.
pub fn net_dir_clear_edges(
    weights: &[i32],
    heads: &mut [u32],
    registers: &mut [u32],
    links: &mut [u32],
    ends: &mut [u32],
    n: u32,
    m: &mut u32,
    directory: &mut [u32],
) -> u32
    ensures { out (told result tt) (filed (leaving weights.now heads.new registers.new links.new ends.new n m.new) directory.new)
        ≡ clear_edges_filed (filed (entering weights.now heads.old registers.old links.old ends.old n m.old) directory.old) }
{
    let answer = clear_edges(weights, heads, registers, links, ends, n, m, directory);
    tell_change(answer)
}

// Takes out all nodes and edges; no number stands in any row.
pub fn net_dir_clear(
    weights: &mut [i32],
    heads: &mut [u32],
    registers: &mut [u32],
    links: &mut [u32],
    ends: &mut [u32],
    n: &mut u32,
    m: &mut u32,
    directory: &mut [u32],
) -> u32
    ensures { out (told result tt) (filed (leaving weights.new heads.new registers.new links.new ends.new n.new m.new) directory.new)
        ≡ clear_filed (filed (entering weights.old heads.old registers.old links.old ends.old n.old m.old) directory.old) }
{
    let answer = clear(weights, heads, registers, links, ends, n, m, directory);
    tell_change(answer)
}

// The image of the network; its length.
pub fn net_dir_image_write(
    weights: &[i32],
    heads: &[u32],
    registers: &[u32],
    links: &[u32],
    ends: &[u32],
    n: u32,
    m: u32,
    directory: &[u32],
    bytes: &mut [u8],
    length: &mut u32,
) -> u32
    ensures { out (told result length.new) bytes.new
        ≡ image_write_filed (filed (entering weights.now heads.now registers.now links.now ends.now n m) directory.now) bytes.old }
{
    let net = Network {
        weights,
        heads,
        registers,
        links,
        ends,
        n,
        m,
    };
    let answer = image_write(net, directory, bytes);
    tell(answer, length)
}

// The network that an image has, in place of the one lent, and its directory.
pub fn net_dir_image_read(
    weights: &mut [i32],
    heads: &mut [u32],
    registers: &mut [u32],
    links: &mut [u32],
    ends: &mut [u32],
    n: &mut u32,
    m: &mut u32,
    directory: &mut [u32],
    bytes: &[u8],
) -> u32
    ensures { out (told result tt) (filed (leaving weights.new heads.new registers.new links.new ends.new n.new m.new) directory.new)
        ≡ image_read_filed (filed (entering weights.old heads.old registers.old links.old ends.old n.old m.old) directory.old) bytes.now }
{
    let answer = image_read(
        weights, heads, registers, links, ends, n, m, directory, bytes,
    );
    tell_change(answer)
}

// The edge that bears register number r.
pub fn net_dir_find_number(
    weights: &[i32],
    heads: &[u32],
    registers: &[u32],
    links: &[u32],
    ends: &[u32],
    n: u32,
    m: u32,
    directory: &[u32],
    r: u32,
    edge: &mut u32,
) -> u32
    ensures { told result edge.new ≡ find_number (filed (entering weights.now heads.now registers.now links.now ends.now n m) directory.now) r }
{
    let net = Network {
        weights,
        heads,
        registers,
        links,
        ends,
        n,
        m,
    };
    let answer = find_number(net, directory, r);
    tell(answer, edge)
}

// Takes out the edge that bears register number r: what the removal of that edge tells.
pub fn net_dir_remove_number(
    weights: &[i32],
    heads: &mut [u32],
    registers: &mut [u32],
    links: &mut [u32],
    ends: &mut [u32],
    n: u32,
    m: &mut u32,
    directory: &mut [u32],
    r: u32,
    weight: &mut u32,
    moved: &mut u32,
    rows: &mut u32,
) -> u32
    ensures { out (told result (weight.new, moved.new, rows.new)) (filed (leaving weights.now heads.new registers.new links.new ends.new n m.new) directory.new)
        ≡ remove_number (filed (entering weights.now heads.old registers.old links.old ends.old n m.old) directory.old) r }
{
    let answer = remove_number(weights, heads, registers, links, ends, n, m, directory, r);
    tell_edge_removed(answer, weight, moved, rows)
}
