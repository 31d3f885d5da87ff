// What the two calls are made of, beside the rows: the check, and what it leaves of a load.
// A call that changes something takes the columns one by one, so that its signature says which (`tables::Network`).
ghost use Rattle.std.specs.Prelude.{◌≡◌, length};
ghost use Rattle.tables.specs.Net.{entering, leaving, net_of};
ghost use Rattle.tables.specs.Answers.{out, told_change};
ghost use Rattle.imagerows.specs.Parts.{RowsAgree};
ghost use Rattle.sound.specs.Check.{is_sound};
ghost use Rattle.loading.specs.Loading.{vacated, settled, read_one};
ghost use Rattle.loading.specs.Parts.{HeadHeld};

use imagerows::parts::load;
use index::Refusal;
use layout::parts::number_at;
use layout::{EDGES_AT, NODES_AT, image_length};
use sound::check;
use tables::Network;
use tables::parts::{vacate_edges, vacate_nodes};

pub fn is_sound(net: Network) -> bool
    ensures { result ≡ is_sound (net_of net.entry) }
{
    check(net).is_ok()
}

// All rows lent become vacant.
#[tactic(auto, unfolding(crate::specs::Loading::vacated, tables::specs::Rows::vacant_nodes, tables::specs::Rows::vacant_edges))]
pub fn empty(
    weights: &mut [i32],
    heads: &mut [u32],
    registers: &mut [u32],
    links: &mut [u32],
    ends: &mut [u32],
)
    requires { RowsAgree (length weights.old) (length heads.old) (length registers.old) (length links.old) (length ends.old) }
    ensures { leaving weights.new heads.new registers.new links.new ends.new 0 0 ≡ vacated (entering weights.old heads.old registers.old links.old ends.old 0 0) }
{
    let nodes = weights.len();
    let edges = registers.len();
    vacate_nodes(weights, heads, 0, nodes);
    vacate_edges(registers, links, ends, 0, edges);
}

// The rows that were loaded stay if they are sound.
#[tactic(auto, using(tables::proofs::Guards::guards), unfolding(crate::specs::Loading::settled))]
fn settle(
    weights: &mut [i32],
    heads: &mut [u32],
    registers: &mut [u32],
    links: &mut [u32],
    ends: &mut [u32],
    n: &mut u32,
    m: &mut u32,
    nodes: u32,
    edges: u32,
) -> Result<(), Refusal>
    requires { RowsAgree (length weights.old) (length heads.old) (length registers.old) (length links.old) (length ends.old) }
    ensures { out (told_change result) (leaving weights.new heads.new registers.new links.new ends.new n.new m.new)
        ≡ settled (entering weights.old heads.old registers.old links.old ends.old nodes edges) }
{
    let net = Network {
        weights,
        heads,
        registers,
        links,
        ends,
        n: nodes,
        m: edges,
    };
    if !is_sound(net) {
        empty(weights, heads, registers, links, ends);
        *n = 0;
        *m = 0;
        return Err(Refusal::Broken);
    }
    *n = nodes;
    *m = edges;
    Ok(())
}

// An image of version 1, past its mark and version.
#[tactic(auto, using(tables::proofs::Guards::guards), unfolding(crate::specs::Loading::read_one))]
pub fn read_one(
    weights: &mut [i32],
    heads: &mut [u32],
    registers: &mut [u32],
    links: &mut [u32],
    ends: &mut [u32],
    n: &mut u32,
    m: &mut u32,
    bytes: &[u8],
) -> Result<(), Refusal>
    requires { HeadHeld (length weights.old) (length heads.old) (length registers.old) (length links.old) (length ends.old) (length bytes.now) }
    ensures { out (told_change result) (leaving weights.new heads.new registers.new links.new ends.new n.new m.new)
        ≡ read_one (entering weights.old heads.old registers.old links.old ends.old n.old m.old) bytes.now }
{
    let nodes = number_at::<4>(bytes, NODES_AT);
    let edges = number_at::<4>(bytes, EDGES_AT);
    let length = image_length(nodes, edges);
    if weights.len() < nodes as usize {
        return Err(Refusal::Full);
    }
    if registers.len() < edges as usize {
        return Err(Refusal::Full);
    }
    if bytes.len() != length {
        return Err(Refusal::NotImage);
    }
    load(weights, heads, registers, links, ends, nodes, edges, bytes);
    settle(weights, heads, registers, links, ends, n, m, nodes, edges)
}
