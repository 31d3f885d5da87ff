// The calls of `exportremovals` for C and its like: each export passes on to the call of its name, and states its clauses again.
#![tactic(auto)]

ghost use Rattle.std.specs.Prelude.{◌≡◌};
ghost use Rattle.tables.specs.Net.{entering, leaving};
ghost use Rattle.tables.specs.Answers.{out};
ghost use Rattle.removal.specs.Removal.{remove_edge};
ghost use Rattle.closing.specs.Closing.{remove_node};
ghost use Rattle.image.specs.Calls.{image_write, image_read};
ghost use Rattle.cells.specs.Told.{told};

// Takes out edge e: its weight, the old number of the row that moved into its place (`END` where none did), the rows read.
#[unsafe(no_mangle)]
pub extern "C" fn net_remove_edge(
    weights: &[i32],
    heads: &mut [u32],
    registers: &mut [u32],
    links: &mut [u32],
    ends: &mut [u32],
    n: u32,
    m: &mut u32,
    e: u32,
    weight: &mut u32,
    moved: &mut u32,
    rows: &mut u32,
) -> u32
    ensures { out (told result (weight.new, moved.new, rows.new)) (leaving weights.now heads.new registers.new links.new ends.new n m.new)
        ≡ remove_edge (entering weights.now heads.old registers.old links.old ends.old n m.old) e }
{
    exportremovals::net_remove_edge(
        weights, heads, registers, links, ends, n, m, e, weight, moved, rows,
    )
}

// Takes out node a with its edges: its weight, the rows read, how many edge weights are in the table.
#[unsafe(no_mangle)]
pub extern "C" fn net_remove_node(
    weights: &mut [i32],
    heads: &mut [u32],
    registers: &mut [u32],
    links: &mut [u32],
    ends: &mut [u32],
    n: &mut u32,
    m: &mut u32,
    a: u32,
    items: &mut [u32],
    weight: &mut i32,
    rows: &mut u64,
    count: &mut u32,
) -> u32
    ensures { out (told result (weight.new, rows.new, count.new)) (leaving weights.new heads.new registers.new links.new ends.new n.new m.new, items.new)
        ≡ remove_node (entering weights.old heads.old registers.old links.old ends.old n.old m.old) a items.old }
{
    exportremovals::net_remove_node(
        weights, heads, registers, links, ends, n, m, a, items, weight, rows, count,
    )
}

// The image of the network; its length.
#[unsafe(no_mangle)]
pub extern "C" fn net_image_write(
    weights: &[i32],
    heads: &[u32],
    registers: &[u32],
    links: &[u32],
    ends: &[u32],
    n: u32,
    m: u32,
    bytes: &mut [u8],
    length: &mut u32,
) -> u32
    ensures { out (told result length.new) bytes.new
        ≡ image_write (entering weights.now heads.now registers.now links.now ends.now n m) bytes.old }
{
    exportremovals::net_image_write(weights, heads, registers, links, ends, n, m, bytes, length)
}

// The network that an image has, in place of the one lent.
#[unsafe(no_mangle)]
pub extern "C" fn net_image_read(
    weights: &mut [i32],
    heads: &mut [u32],
    registers: &mut [u32],
    links: &mut [u32],
    ends: &mut [u32],
    n: &mut u32,
    m: &mut u32,
    bytes: &[u8],
) -> u32
    ensures { out (told result tt) (leaving weights.new heads.new registers.new links.new ends.new n.new m.new)
        ≡ image_read (entering weights.old heads.old registers.old links.old ends.old n.old m.old) bytes.now }
{
    exportremovals::net_image_read(weights, heads, registers, links, ends, n, m, bytes)
}
