// What the removal is made of: an edge bypassed, and the gap filled by the last row.
// A part takes the columns that it needs one by one, so that its signature says which it may change (`tables::Network`).
ghost use Rattle.std.specs.Prelude.{length};
ghost use Rattle.tables.specs.Net.{loan};
ghost use Rattle.removal.specs.Parts.{Removable, Gap, TakesOut, FillsGap};

use crate::RemovedEdge;
use index::{EdgeIndex, Refusal};
use links::Located;
use links::parts::{change_edge_links, lead, move_last};
use tables::Edge;
use tables::parts::{EDGE_CELLS, INCOMING, OUTGOING, write_edge};

// Edge e is bypassed, and goes, if it is the last row; else the last row takes its place. Where a search fails, all is as it was.
pub fn take_out(
    heads: &mut [u32],
    registers: &mut [u32],
    links: &mut [u32],
    ends: &mut [u32],
    n: u32,
    m: &mut u32,
    e: EdgeIndex,
) -> Result<RemovedEdge, Refusal>
    requires { Removable (length heads.old) (length registers.old) (length links.old) (length ends.old) n m.old e.0 }
    ensures { TakesOut (loan heads.old heads.new) (loan registers.old registers.new) (loan links.old links.new) (loan ends.old ends.new) n (loan m.old m.new) e.0 result }
{
    let edges = *m;
    let last = EdgeIndex(edges - 1);
    let cell = EDGE_CELLS * e.index();
    let v = links[cell + OUTGOING];
    let w = links[cell + INCOMING];
    let place = change_edge_links(heads, links, ends, n, edges, e, v, w).ok_or(Refusal::Broken)?;
    if e == last {
        let weight = registers[e.index()];
        write_edge(registers, links, ends, e.index(), Edge::vacant());
        *m = last.0;
        return Ok(RemovedEdge {
            weight,
            moved: None,
            rows: place.rows,
        });
    }
    fill_gap(heads, registers, links, ends, n, m, e, place)
}

// The last row takes the place of e, which is bypassed: links at `place` led to it. It is sought under its old number; where it is
// lost, they lead to e again.
pub fn fill_gap(
    heads: &mut [u32],
    registers: &mut [u32],
    links: &mut [u32],
    ends: &mut [u32],
    n: u32,
    m: &mut u32,
    e: EdgeIndex,
    place: Located,
) -> Result<RemovedEdge, Refusal>
    requires { Gap (length heads.old) (length registers.old) (length links.old) (length ends.old) n m.old e.0 place }
    ensures { FillsGap (loan heads.old heads.new) (loan registers.old registers.new) (loan links.old links.new) (loan ends.old ends.new) n (loan m.old m.new) e.0 place result }
{
    let edges = *m;
    let last = EdgeIndex(edges - 1);
    // The weight is read before the walks, which it need not wait for.
    let weight = registers[e.index()];
    let Some(row) = change_edge_links(heads, links, ends, n, edges, last, e.0, e.0) else {
        lead(heads, links, place.outgoing, place.incoming, e.0, e.0);
        return Err(Refusal::Broken);
    };
    move_last(registers, links, ends, e, last);
    *m = last.0;
    Ok(RemovedEdge {
        weight,
        moved: Some(last),
        rows: place.rows + row.rows,
    })
}
