// The directory of rows that were loaded: it is filled, and they stay; or all is left empty.
// A part takes the columns that it needs one by one, so that its signature says which it may change (`tables::Network`).
ghost use Rattle.std.specs.Prelude.{◌≤◌, ◌≡◌, length};
ghost use Rattle.index.specs.Refusals.{refusal_no};
ghost use Rattle.tables.specs.Net.{entering, leaving, loan};
ghost use Rattle.tables.specs.Answers.{out, told_change};
ghost use Rattle.directory.specs.Directory.{register_in, filed};
ghost use Rattle.dirimage.specs.Calls.{entries_left, filled_by};
ghost use Rattle.dirimage.specs.Parts.{Enters, Files, LeavesFit};

use directory::parts::{enter, entry};
use index::{EdgeIndex, Refusal};
use loading::parts::empty;

// Column and count, not the rows in use as a slice: a row's number is what is entered for it, and `Enters` speaks of the rows below m.
// The rows are entered in turn. A number without a cell is 12 at once; one that is borne twice is 11, but only once every number has a cell.
fn enter_rows(registers: &[u32], m: u32, directory: &mut [u32]) -> Result<(), Refusal>
    requires { m ≤ length registers.now }
    ensures { Enters (register_in registers.now) m (loan directory.old directory.new) result }
{
    directory.fill(EdgeIndex::END.0);
    let mut apart = true;
    for e in 0..m {
        let r = registers[e as usize];
        if directory.len() <= r as usize {
            return Err(Refusal::Beyond);
        }
        apart &= entry(directory, r).is_end();
        enter(directory, r, EdgeIndex(e));
    }
    if !apart {
        return Err(Refusal::Taken);
    }
    Ok(())
}

// The directory becomes that of the rows; refused 12, 11, every entry is none.
fn file(registers: &[u32], m: u32, directory: &mut [u32]) -> Result<(), Refusal>
    requires { m ≤ length registers.now }
    ensures { Files (register_in registers.now) m (loan directory.old directory.new) result }
{
    let claim = enter_rows(registers, m, directory);
    if claim.is_err() {
        directory.fill(EdgeIndex::END.0);
    }
    claim
}

// What a load that is refused without a directory leaves of the entries: 6 has emptied the network, and takes them along.
fn leave_entries(directory: &mut [u32], why: Refusal)
    ensures { directory.new ≡ entries_left (refusal_no why) directory.old }
{
    if why == Refusal::Broken {
        directory.fill(EdgeIndex::END.0);
    }
}

// What the load without a directory has told decides. Refused: the entries go where 6 has emptied the network, and stay else.
// Served: the rows stay if they can be filed; if not, nothing is left of rows or entries.
#[tactic(auto, using(tables::proofs::Guards::guards, tables::proofs::Laws::fitting), unfolding(crate::specs::Calls::settled_filed))]
pub fn fill_by(
    weights: &mut [i32],
    heads: &mut [u32],
    registers: &mut [u32],
    links: &mut [u32],
    ends: &mut [u32],
    n: &mut u32,
    m: &mut u32,
    directory: &mut [u32],
    told: Result<(), Refusal>,
) -> Result<(), Refusal>
    requires { LeavesFit told (length weights.old) (length heads.old) (length registers.old) (length links.old) (length ends.old) n.old m.old }
    ensures { out (told_change result) (filed (leaving weights.new heads.new registers.new links.new ends.new n.new m.new) directory.new)
        ≡ filled_by directory.old (out (told_change told) (entering weights.old heads.old registers.old links.old ends.old n.old m.old)) }
{
    if let Err(why) = told {
        leave_entries(directory, why);
        return Err(why);
    }
    let claim = file(registers, *m, directory);
    if claim.is_err() {
        empty(weights, heads, registers, links, ends);
        *n = 0;
        *m = 0;
    }
    claim
}
