// The network as bytes, and back.
// A call that changes something takes the columns one by one, so that its signature says which (`tables::Network`).
#![tactic(auto)]

ghost use Rattle.std.specs.Prelude.{◌≡◌};
ghost use Rattle.tables.specs.Net.{entering, leaving, net_of};
ghost use Rattle.tables.specs.Answers.{out, told_items, told_change};
ghost use Rattle.image.specs.Calls.{image_write, image_read};

use imagerows::parts::write;
use index::Refusal;
use layout::parts::{marked, number_at};
use layout::{HEAD_BYTES, VERSION, VERSION_AT, image_length};
use loading::parts::{is_sound, read_one};
use tables::Network;
use tables::parts::fits;

// The network's image at the front of `bytes`; its length.
#[tactic(auto, using(tables::proofs::Guards::guards, tables::proofs::Laws::fitting, crate::proofs::Served::rooms), unfolding(crate::specs::Calls::image_write))]
pub fn image_write(net: Network, bytes: &mut [u8]) -> Result<u32, Refusal>
    ensures { out (told_items result) bytes.new ≡ image_write (net_of net.entry) bytes.old }
{
    if !net.fits() {
        return Err(Refusal::Tables);
    }
    if !is_sound(net) {
        return Err(Refusal::Broken);
    }
    let length = image_length(net.n, net.m);
    if bytes.len() < length {
        return Err(Refusal::Short);
    }
    write(net, bytes);
    Ok(length as u32)
}

// The network that an image has, in place of the one lent. The version is told apart here alone.
#[tactic(auto, using(tables::proofs::Guards::guards, tables::proofs::Laws::fitting), unfolding(crate::specs::Calls::image_read))]
pub fn image_read(
    weights: &mut [i32],
    heads: &mut [u32],
    registers: &mut [u32],
    links: &mut [u32],
    ends: &mut [u32],
    n: &mut u32,
    m: &mut u32,
    bytes: &[u8],
) -> Result<(), Refusal>
    ensures { out (told_change result) (leaving weights.new heads.new registers.new links.new ends.new n.new m.new)
        ≡ image_read (entering weights.old heads.old registers.old links.old ends.old n.old m.old) bytes.now }
{
    if !fits(weights, heads, registers, links, ends, *n, *m) {
        return Err(Refusal::Tables);
    }
    if bytes.len() < HEAD_BYTES {
        return Err(Refusal::NotImage);
    }
    let mark = marked(bytes);
    let version = number_at::<2>(bytes, VERSION_AT);
    if !mark {
        return Err(Refusal::NotImage);
    }
    if version != VERSION {
        return Err(Refusal::Version);
    }
    read_one(weights, heads, registers, links, ends, n, m, bytes)
}
