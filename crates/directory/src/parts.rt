// What the calls with a directory are made of, beside the base's parts. A directory may have any length, so a part that reads or sets an entry asks nothing.
ghost use Rattle.std.specs.Prelude.{◌<◌, ◌≡◌, length, set};
ghost use Rattle.directory.specs.Directory.{register_in, entry, bears, stands, row_named, rows_named, entries_stand, is_right, followed};

use index::EdgeIndex;

// The row that number r stands in, or `END`: none, also where the directory has no cell for it. An Option would be no plainer: the cells hold `END`,
// `enter` takes it, and the contract tells the two alike.
pub fn entry(directory: &[u32], r: u32) -> EdgeIndex
    ensures { result.0 ≡ entry directory.now r }
{
    match directory.get(r as usize) {
        Some(&e) => EdgeIndex(e),
        None => EdgeIndex::END,
    }
}

// Number r stands in row e, or in none, `END`. Where the directory has no cell for it nothing changes.
pub fn enter(directory: &mut [u32], r: u32, e: EdgeIndex)
    ensures { directory.new ≡ set directory.old r e.0 }
{
    if (r as usize) < directory.len() {
        directory[r as usize] = e.0;
    }
}

// The entry of row e's number names it. That e is a row is asked here, in `follow` and in dirrows' `reweigh`: a row number with this for an
// invariant would be one of a column that is lent, and so no plainer.
pub fn named(registers: &[u32], directory: &[u32], e: EdgeIndex) -> bool
    requires { e.0 < length registers.now }
    ensures { result ≡ row_named (register_in registers.now) directory.now e.0 }
{
    entry(directory, registers[e.index()]) == e
}

// Each row's entry names it. The numbers are those of the rows in use, in row order, here and below.
pub fn rows_named(numbers: &[u32], directory: &[u32]) -> bool
    ensures { result ≡ rows_named (register_in numbers.now) (length numbers.now) directory.now }
{
    numbers
        .iter()
        .enumerate()
        .all(|(e, &r)| entry(directory, r).index() == e)
}

// Row x is in use, and bears number r.
pub fn bears(numbers: &[u32], x: EdgeIndex, r: usize) -> bool
    ensures { result ≡ bears (register_in numbers.now) (length numbers.now) x.0 r }
{
    x.index() < numbers.len() && numbers[x.index()] as usize == r
}

// An entry of number r that is none, or names a row that bears it.
pub fn stands(numbers: &[u32], x: EdgeIndex, r: usize) -> bool
    ensures { result ≡ stands (register_in numbers.now) (length numbers.now) x.0 r }
{
    x.is_end() || bears(numbers, x, r)
}

// Each entry is none, or names a row that bears its number.
pub fn entries_stand(numbers: &[u32], directory: &[u32]) -> bool
    ensures { result ≡ entries_stand (register_in numbers.now) (length numbers.now) directory.now }
{
    directory
        .iter()
        .enumerate()
        .all(|(r, &x)| stands(numbers, EdgeIndex(x), r))
}

// The directory is right for these rows.
#[tactic(auto, unfolding(crate::specs::Directory::is_right))]
pub fn is_right(numbers: &[u32], directory: &[u32]) -> bool
    ensures { result ≡ is_right (register_in numbers.now) (length numbers.now) directory.now }
{
    rows_named(numbers, directory) && entries_stand(numbers, directory)
}

// The edge of row e, which bore number w, is out, and m rows are left: w stands in none, and the row that is e now, if one is, has its entry there.
// The column and m stay apart: m is the number, too, that the row which moved had (the edit moved_row_not_renamed).
#[tactic(auto, unfolding(crate::specs::Directory::followed))]
pub fn follow(directory: &mut [u32], registers: &[u32], m: u32, w: u32, e: EdgeIndex)
    requires { e.0 < length registers.now }
    ensures { directory.new ≡ followed (register_in registers.now) m w e.0 directory.old }
{
    enter(directory, w, EdgeIndex::END);
    if e.0 < m {
        enter(directory, registers[e.index()], e);
    }
}
