// An answer taken apart: the number that the order has for it is returned, its values are left in the cells. A refusal leaves zeros.
ghost use Rattle.std.specs.Prelude.{◌≡◌, cond, pos, [], ◌∷◌};
ghost use Rattle.tables.specs.Answers.{out, told_as, told_ends, told_change};
ghost use Rattle.walker.specs.Steps.{told_begun, told_step, moved};
ghost use Rattle.sound.specs.Check.{told_checked};
ghost use Rattle.removal.specs.Removal.{moved_no, told_edge_removed};
ghost use Rattle.closing.specs.Closing.{told_node_removed};
ghost use Rattle.cells.specs.Told.{told, walker_in, cells_of, told_in_cells};

use closing::RemovedNode;
use index::{EdgeIndex, NodeIndex, Refusal};
use removal::RemovedEdge;
use sound::Fault;
use walker::{Step, Walker};

// A value that an answer tells, as the cells lent for it hold it.
pub trait InCells: Copy {
    type Cells: Copy;

    ghost in_cells: { Self → Self.Cells };

    ghost ZEROS: { Self.Cells };

    // What a refusal leaves in them.
    const ZEROS: Self::Cells;

    fn in_cells(self) -> Self::Cells
        ensures { result ≡ in_cells self };
}

impl InCells for u32 {
    type Cells = u32;

    ghost in_cells = { λ x. x };

    ghost ZEROS = { 0 };

    const ZEROS: u32 = 0;

    fn in_cells(self) -> u32 {
        self
    }
}

impl InCells for i32 {
    type Cells = i32;

    ghost in_cells = { λ x. x };

    ghost ZEROS = { pos 0 };

    const ZEROS: i32 = 0;

    fn in_cells(self) -> i32 {
        self
    }
}

impl InCells for i64 {
    type Cells = i64;

    ghost in_cells = { λ x. x };

    ghost ZEROS = { pos 0 };

    const ZEROS: i64 = 0;

    fn in_cells(self) -> i64 {
        self
    }
}

impl InCells for bool {
    type Cells = u32;

    ghost in_cells = { λ yes. cond yes 1 0 };

    ghost ZEROS = { 0 };

    const ZEROS: u32 = 0;

    fn in_cells(self) -> u32 {
        u32::from(self)
    }
}

impl InCells for NodeIndex {
    type Cells = u32;

    ghost in_cells = { λ a. a.0 };

    ghost ZEROS = { 0 };

    const ZEROS: u32 = 0;

    fn in_cells(self) -> u32 {
        self.0
    }
}

impl InCells for EdgeIndex {
    type Cells = u32;

    ghost in_cells = { λ e. e.0 };

    ghost ZEROS = { 0 };

    const ZEROS: u32 = 0;

    fn in_cells(self) -> u32 {
        self.0
    }
}

// Source and target.
impl InCells for (NodeIndex, NodeIndex) {
    type Cells = (u32, u32);

    ghost in_cells = { λ ends. (ends.0.0, ends.1.0) };

    ghost ZEROS = { (0, 0) };

    const ZEROS: (u32, u32) = (0, 0);

    fn in_cells(self) -> (u32, u32) {
        (self.0.0, self.1.0)
    }
}

// The three numbers of a walker.
impl InCells for Walker {
    type Cells = [u32; 3];

    ghost in_cells = { cells_of };

    ghost ZEROS = { 0 ∷ 0 ∷ 0 ∷ [] };

    const ZEROS: [u32; 3] = [0; 3];

    fn in_cells(self) -> [u32; 3] {
        [self.start.0, self.outgoing.0, self.incoming.0]
    }
}

// The edge's weight, the number of the row that moved, or `END`, and the rows read.
impl InCells for RemovedEdge {
    type Cells = (u32, u32, u32);

    ghost in_cells = { λ x. (x.weight, moved_no x.moved, x.rows) };

    ghost ZEROS = { (0, 0, 0) };

    const ZEROS: (u32, u32, u32) = (0, 0, 0);

    fn in_cells(self) -> (u32, u32, u32) {
        let moved = self.moved.unwrap_or(EdgeIndex::END);
        (self.weight, moved.0, self.rows)
    }
}

// The node's weight, the rows read, and how many weights of edges were given.
impl InCells for RemovedNode {
    type Cells = (i32, u64, u32);

    ghost in_cells = { λ x. (x.weight, x.rows, x.count) };

    ghost ZEROS = { (pos 0, 0, 0) };

    const ZEROS: (i32, u64, u32) = (0, 0, 0);

    fn in_cells(self) -> (i32, u64, u32) {
        (self.weight, self.rows, self.count)
    }
}

// The number of an answer, and its values or zeros.
fn told<T: InCells>(answer: Result<T, Refusal>) -> (u32, T::Cells)
    ensures { told result.0 result.1 ≡ told_as T.in_cells T.ZEROS answer }
{
    match answer {
        Ok(value) => (0, value.in_cells()),
        Err(why) => (why.number(), T::ZEROS),
    }
}

// An answer whose values go into one cell.
pub fn tell<T: InCells>(answer: Result<T, Refusal>, cell: &mut T::Cells) -> u32
    ensures { told result cell.new ≡ told_as T.in_cells T.ZEROS answer }
{
    let (number, value) = told(answer);
    *cell = value;
    number
}

pub fn tell_ends(
    answer: Result<(NodeIndex, NodeIndex), Refusal>,
    source: &mut u32,
    target: &mut u32,
) -> u32
    ensures { told result (source.new, target.new) ≡ told_ends answer }
{
    let (number, ends) = told(answer);
    (*source, *target) = ends;
    number
}

// An answer that tells no value has no cell.
pub fn tell_change(answer: Result<(), Refusal>) -> u32
    ensures { told result tt ≡ told_change answer }
{
    match answer {
        Ok(()) => 0,
        Err(why) => why.number(),
    }
}

// The walker that three numbers are.
pub fn walker_in(walker: &[u32; 3]) -> Walker
    ensures { result ≡ walker_in walker.now }
{
    let [start, outgoing, incoming] = *walker;
    Walker {
        start: NodeIndex(start),
        outgoing: EdgeIndex(outgoing),
        incoming: EdgeIndex(incoming),
    }
}

pub fn tell_walker(answer: Result<Walker, Refusal>, walker: &mut [u32; 3]) -> u32
    ensures { told result walker.new ≡ told_in_cells (told_begun answer) }
{
    tell(answer, walker)
}

// A step leaves the walker, whatever it answers.
pub fn tell_step(answer: Step, walker: &mut [u32; 3], neighbor: &mut u32) -> u32
    ensures { out (told result neighbor.new) walker.new ≡ out (told_step answer) (cells_of (moved answer)) }
{
    *walker = answer.walker.in_cells();
    tell(answer.neighbor, neighbor)
}

// A fault has a place: its direction and its node.
pub fn tell_check(
    answer: Result<u32, Fault>,
    rows: &mut u32,
    direction: &mut u32,
    node: &mut u32,
) -> u32
    ensures { told result (rows.new, direction.new, node.new) ≡ told_checked answer }
{
    let (number, cells) = match answer {
        Ok(read) => (0, (read, 0, 0)),
        Err(Fault::At(d, a)) => (Refusal::Broken.number(), (0, d.number() as u32, a.0)),
        Err(Fault::Refused(why)) => (why.number(), (0, 0, 0)),
    };
    (*rows, *direction, *node) = cells;
    number
}

pub fn tell_edge_removed(
    answer: Result<RemovedEdge, Refusal>,
    weight: &mut u32,
    moved: &mut u32,
    rows: &mut u32,
) -> u32
    ensures { told result (weight.new, moved.new, rows.new) ≡ told_edge_removed answer }
{
    let (number, cells) = told(answer);
    (*weight, *moved, *rows) = cells;
    number
}

pub fn tell_node_removed(
    answer: Result<RemovedNode, Refusal>,
    weight: &mut i32,
    rows: &mut u64,
    count: &mut u32,
) -> u32
    ensures { told result (weight.new, rows.new, count.new) ≡ told_node_removed answer }
{
    let (number, cells) = told(answer);
    (*weight, *rows, *count) = cells;
    number
}
