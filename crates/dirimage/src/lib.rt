// A network with a directory as bytes, and back. The image holds no directory: a load fills it.
// A call that changes something takes the columns one by one, so that its signature says which (`tables::Network`).
#![tactic(auto)]

ghost use Rattle.std.specs.Prelude.{◌≡◌};
ghost use Rattle.tables.specs.Net.{entering, leaving, net_of};
ghost use Rattle.tables.specs.Answers.{out, told_items, told_change};
ghost use Rattle.directory.specs.Directory.{filed};
ghost use Rattle.dirimage.specs.Calls.{image_write_filed, image_read_filed};

use directory::parts::is_right;
use index::Refusal;
use parts::fill_by;
use tables::Network;

pub mod parts;

// The network's image at the front of `bytes`; its length. A directory that is not right is refused as broken links are.
#[tactic(auto, using(tables::proofs::Guards::guards, tables::proofs::Laws::fitting, directory::proofs::Every::fronting), unfolding(crate::specs::Calls::image_write_filed))]
pub fn image_write(net: Network, directory: &[u32], bytes: &mut [u8]) -> Result<u32, Refusal>
    ensures { out (told_items result) bytes.new ≡ image_write_filed (filed (net_of net.entry) directory.now) bytes.old }
{
    if !net.fits() {
        return Err(Refusal::Tables);
    }
    if !is_right(&net.registers[..net.m as usize], directory) {
        return Err(Refusal::Broken);
    }
    image::image_write(net, bytes)
}

// The network that an image has, in place of the one lent; the directory becomes that of its rows. What the directory held before is not read.
pub fn image_read(
    weights: &mut [i32],
    heads: &mut [u32],
    registers: &mut [u32],
    links: &mut [u32],
    ends: &mut [u32],
    n: &mut u32,
    m: &mut u32,
    directory: &mut [u32],
    bytes: &[u8],
) -> Result<(), Refusal>
    ensures { out (told_change result) (filed (leaving weights.new heads.new registers.new links.new ends.new n.new m.new) directory.new)
        ≡ image_read_filed (filed (entering weights.old heads.old registers.old links.old ends.old n.old m.old) directory.old) bytes.now }
{
    let told = image::image_read(weights, heads, registers, links, ends, n, m, bytes);
    fill_by(
        weights, heads, registers, links, ends, n, m, directory, told,
    )
}
