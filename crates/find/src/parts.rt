// The search behind the calls of this crate. It also tells in which list it found the row.
// A part takes the columns that it reads and no others: the whole network, as `tables::Network`, would ask more of its callers.
ghost use Rattle.std.specs.Prelude.{◌≡◌, length};
ghost use Rattle.find.specs.Parts.{sought_from, Searchable};

use index::{EdgeDirection, EdgeIndex, NodeIndex, Refusal};
use lists::parts::first;
use lists::{Found, Pick};
use tables::parts::NODE_CELLS;

// The first row of a whose far end is b, and the direction of the list that has it: the outgoing list first, then the incoming one.
pub fn seek(
    heads: &[u32],
    links: &[u32],
    ends: &[u32],
    m: u32,
    a: NodeIndex,
    b: NodeIndex,
) -> Result<Option<(EdgeIndex, usize)>, Refusal>
    requires { Searchable (length heads.now) (length links.now) (length ends.now) m a.0 }
    ensures { result ≡ sought_from heads.now links.now ends.now m a.0 b.0 }
{
    for direction in EdgeDirection::ALL {
        let k = direction.number();
        let link = heads[NODE_CELLS * a.index() + k];
        match first(links, ends, m, k, Pick::To(b), link) {
            Found::At(e) => return Ok(Some((e, k))),
            Found::End(_) => {}
            Found::Broken => return Err(Refusal::Broken),
        }
    }
    Ok(None)
}
