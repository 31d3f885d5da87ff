// The calls of `dirloops` for C and its like: each export passes on to the call of its name, and states its clauses again.
#![tactic(auto)]

ghost use Rattle.std.specs.Prelude.{◌≡◌};
ghost use Rattle.tables.specs.Net.{entering, leaving};
ghost use Rattle.directory.specs.Directory.{filed};
ghost use Rattle.loops.specs.Loops.{sums};
ghost use Rattle.dirloops.specs.Loops.{add_edges_filed, find_numbers, remove_numbers};

// An edge for each row of three cells: source, target, register number.
#[unsafe(no_mangle)]
pub extern "C" fn loop_dir_add_edges(
    weights: &[i32],
    heads: &mut [u32],
    registers: &mut [u32],
    links: &mut [u32],
    ends: &mut [u32],
    n: u32,
    m: &mut u32,
    directory: &mut [u32],
    edges: &[u32],
) -> u64
    ensures { sums result (filed (leaving weights.now heads.new registers.new links.new ends.new n m.new) directory.new)
        ≡ add_edges_filed (filed (entering weights.now heads.old registers.old links.old ends.old n m.old) directory.old) edges.now }
{
    dirloops::loop_dir_add_edges(
        weights, heads, registers, links, ends, n, m, directory, edges,
    )
}

// The edge that bears each number.
#[unsafe(no_mangle)]
pub extern "C" fn loop_find_numbers(
    weights: &[i32],
    heads: &[u32],
    registers: &[u32],
    links: &[u32],
    ends: &[u32],
    n: u32,
    m: u32,
    directory: &[u32],
    numbers: &[u32],
) -> u64
    ensures { result ≡ find_numbers (filed (entering weights.now heads.now registers.now links.now ends.now n m) directory.now) numbers.now }
{
    dirloops::loop_find_numbers(
        weights, heads, registers, links, ends, n, m, directory, numbers,
    )
}

// Takes out the edge that bears each number.
#[unsafe(no_mangle)]
pub extern "C" fn loop_remove_numbers(
    weights: &[i32],
    heads: &mut [u32],
    registers: &mut [u32],
    links: &mut [u32],
    ends: &mut [u32],
    n: u32,
    m: &mut u32,
    directory: &mut [u32],
    numbers: &[u32],
) -> u64
    ensures { sums result (filed (leaving weights.now heads.new registers.new links.new ends.new n m.new) directory.new)
        ≡ remove_numbers (filed (entering weights.now heads.old registers.old links.old ends.old n m.old) directory.old) numbers.now }
{
    dirloops::loop_remove_numbers(
        weights, heads, registers, links, ends, n, m, directory, numbers,
    )
}
