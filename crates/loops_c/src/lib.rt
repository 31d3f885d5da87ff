// The calls of `loops` for C and its like: each export passes on to the call of its name, and states its clauses again.
#![tactic(auto)]

ghost use Rattle.std.specs.Prelude.{◌≡◌};
ghost use Rattle.tables.specs.Net.{entering, leaving};
ghost use Rattle.loops.specs.Loops.{sums, add_nodes, add_edges, find_edges, neighbors_of_all, remove_edges};

// A node for each total.
#[unsafe(no_mangle)]
pub extern "C" fn loop_add_nodes(
    weights: &mut [i32],
    heads: &mut [u32],
    registers: &[u32],
    links: &[u32],
    ends: &[u32],
    n: &mut u32,
    m: u32,
    totals: &[i32],
) -> u64
    ensures { sums result (leaving weights.new heads.new registers.now links.now ends.now n.new m)
        ≡ add_nodes (entering weights.old heads.old registers.now links.now ends.now n.old m) totals.now }
{
    loops::loop_add_nodes(weights, heads, registers, links, ends, n, m, totals)
}

// An edge for each row of three cells: source, target, register number.
#[unsafe(no_mangle)]
pub extern "C" fn loop_add_edges(
    weights: &[i32],
    heads: &mut [u32],
    registers: &mut [u32],
    links: &mut [u32],
    ends: &mut [u32],
    n: u32,
    m: &mut u32,
    edges: &[u32],
) -> u64
    ensures { sums result (leaving weights.now heads.new registers.new links.new ends.new n m.new)
        ≡ add_edges (entering weights.now heads.old registers.old links.old ends.old n m.old) edges.now }
{
    loops::loop_add_edges(weights, heads, registers, links, ends, n, m, edges)
}

// The edge between the two nodes of each row of two cells.
#[unsafe(no_mangle)]
pub extern "C" fn loop_find_edges(
    weights: &[i32],
    heads: &[u32],
    registers: &[u32],
    links: &[u32],
    ends: &[u32],
    n: u32,
    m: u32,
    pairs: &[u32],
) -> u64
    ensures { result ≡ find_edges (entering weights.now heads.now registers.now links.now ends.now n m) pairs.now }
{
    loops::loop_find_edges(weights, heads, registers, links, ends, n, m, pairs)
}

// The neighbours of every node, each time into the same table.
#[unsafe(no_mangle)]
pub extern "C" fn loop_neighbors(
    weights: &[i32],
    heads: &[u32],
    registers: &[u32],
    links: &[u32],
    ends: &[u32],
    n: u32,
    m: u32,
    items: &mut [u32],
) -> u64
    ensures { sums result items.new ≡ neighbors_of_all (entering weights.now heads.now registers.now links.now ends.now n m) items.old }
{
    loops::loop_neighbors(weights, heads, registers, links, ends, n, m, items)
}

// Takes out an edge for each number.
#[unsafe(no_mangle)]
pub extern "C" fn loop_remove_edges(
    weights: &[i32],
    heads: &mut [u32],
    registers: &mut [u32],
    links: &mut [u32],
    ends: &mut [u32],
    n: u32,
    m: &mut u32,
    numbers: &[u32],
) -> u64
    ensures { sums result (leaving weights.now heads.new registers.new links.new ends.new n m.new)
        ≡ remove_edges (entering weights.now heads.old registers.old links.old ends.old n m.old) numbers.now }
{
    loops::loop_remove_edges(weights, heads, registers, links, ends, n, m, numbers)
}
