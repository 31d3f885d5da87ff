// The letter of a script line chooses the command. It stays the byte that the script has and the answer repeats: an enum of the commands would be no
// plainer, since it would be read from that byte at one end and told by it at the other.
#![tactic(auto)]

ghost use Rattle.std.specs.Prelude.{◌≡◌};
ghost use Rattle.commands.specs.Commands.{replied};
ghost use Rattle.dispatch.specs.Step.{step, state_of};
ghost use Rattle.dispatch.specs.Parts.{NotAdding, NotChanging, SameTables};

use commands::{
    add_edge_line, add_node_line, check_line, clear_edges_line, clear_line, edges_between_line,
    edges_line, edges_mut_line, find_edge_line, neighbors_line, remove_edge_line, remove_node_line,
    sum_around_line, update_edge_line,
};
use index::Refusal;
use reply::Reply;
use tables::Network;

// What a run works on, from line to line: the network's columns and counts, and the output tables of its commands. `sources` and `targets`
// are for the ends of a G, which no line tells.
#[derive(Drop)]
pub struct Desk<'a> {
    pub weights: &'a mut [i32],
    pub heads: &'a mut [u32],
    pub registers: &'a mut [u32],
    pub links: &'a mut [u32],
    pub ends: &'a mut [u32],
    pub n: u32,
    pub m: u32,
    pub items: &'a mut [u32],
    pub sources: &'a mut [u32],
    pub targets: &'a mut [u32],
}

// The numbers behind a letter: the node weight of an N, or up to three others.
#[derive(Clone, Copy)]
pub struct Numbers {
    pub w: i32,
    pub a: u32,
    pub b: u32,
    pub c: u32,
}

// The command of a letter: those that add stand here, the others in the two functions below.
#[tactic(auto, unfolding(crate::specs::Step::step))]
pub fn dispatch(desk: &mut Desk, letter: u8, o: Numbers) -> Reply
    ensures does { replied result (state_of desk.new) ≡ step letter o (state_of desk.old) }
    ensures same { SameTables desk.old desk.new }
{
    // A count that a command changes is lent apart and put back: a command's `&mut` into the desk would keep it in memory, from which each line
    // would read anew where its tables lie and how long they are.
    let (mut n, mut m) = (desk.n, desk.m);
    // Columns that a command only reads are lent by `&mut` as well: tried by `&`, and the prover has no rule yet for that beside a `&mut` of another.
    let weights = &mut *desk.weights;
    let heads = &mut *desk.heads;
    let registers = &mut *desk.registers;
    let links = &mut *desk.links;
    let ends = &mut *desk.ends;
    match letter {
        b'N' => {
            let reply = add_node_line(weights, heads, registers, links, ends, &mut n, m, o.w);
            desk.n = n;
            reply
        }
        b'E' => {
            let reply = add_edge_line(
                weights, heads, registers, links, ends, n, &mut m, o.a, o.b, o.c,
            );
            desk.m = m;
            reply
        }
        b'U' => {
            let reply = update_edge_line(
                weights, heads, registers, links, ends, n, &mut m, o.a, o.b, o.c,
            );
            desk.m = m;
            reply
        }
        _ => take_out(desk, letter, o),
    }
}

// The commands that take out.
#[tactic(auto, unfolding(crate::specs::Step::step))]
fn take_out(desk: &mut Desk, letter: u8, o: Numbers) -> Reply
    requires { NotAdding letter }
    ensures does { replied result (state_of desk.new) ≡ step letter o (state_of desk.old) }
    ensures same { SameTables desk.old desk.new }
{
    let (mut n, mut m) = (desk.n, desk.m);
    let weights = &mut *desk.weights;
    let heads = &mut *desk.heads;
    let registers = &mut *desk.registers;
    let links = &mut *desk.links;
    let ends = &mut *desk.ends;
    match letter {
        b'X' => {
            let reply = remove_edge_line(weights, heads, registers, links, ends, n, &mut m, o.a);
            desk.m = m;
            reply
        }
        b'D' => {
            let reply = remove_node_line(
                weights, heads, registers, links, ends, &mut n, &mut m, o.a, desk.items,
            );
            (desk.n, desk.m) = (n, m);
            reply
        }
        b'C' => {
            let reply = clear_edges_line(weights, heads, registers, links, ends, n, &mut m);
            desk.m = m;
            reply
        }
        b'Z' => {
            let reply = clear_line(weights, heads, registers, links, ends, &mut n, &mut m);
            (desk.n, desk.m) = (n, m);
            reply
        }
        _ => tell(desk, letter, o),
    }
}

// The commands that leave the network as it is.
#[tactic(auto, unfolding(crate::specs::Step::step))]
fn tell(desk: &mut Desk, letter: u8, o: Numbers) -> Reply
    requires { NotChanging letter }
    ensures does { replied result (state_of desk.new) ≡ step letter o (state_of desk.old) }
    ensures same { SameTables desk.old desk.new }
{
    let n = desk.n;
    let m = desk.m;
    // Each column is lent by `&mut` though it is only read: tried by `&`, and the prover has no rule yet for that beside the tables' `&mut`.
    let net = Network {
        weights: &mut *desk.weights,
        heads: &mut *desk.heads,
        registers: &mut *desk.registers,
        links: &mut *desk.links,
        ends: &mut *desk.ends,
        n,
        m,
    };
    match letter {
        b'F' => find_edge_line(net, o.a, o.b),
        b'W' => neighbors_line(net, o.a, desk.items),
        b'G' => edges_line(net, o.a, desk.items, desk.sources, desk.targets),
        b'M' => edges_mut_line(net, o.a, desk.items),
        b'B' => edges_between_line(net, o.a, o.b, desk.items),
        b'A' => sum_around_line(net, o.a),
        b'S' => check_line(net),
        _ => Reply::bare(b'?', Refusal::NotCommand.number()),
    }
}
