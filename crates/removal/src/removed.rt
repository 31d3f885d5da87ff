// What the removal of an edge tells.
ghost use Rattle.std.specs.Prelude.{◌≢◌};
ghost use Rattle.std.specs.Option.{ForSome};
ghost use Rattle.index.specs.Index.{END};

use index::EdgeIndex;

// The edge's weight, the old number of the row that moved into its place, where one did, and the rows read.
#[derive(Clone, Copy)]
pub struct RemovedEdge {
    pub weight: u32,
    pub moved: Option<EdgeIndex>,
    pub rows: u32,
    // `END`, which tells that none moved, is no row's number.
    pub ghost moved_is_row: { ForSome moved (λ e. e.0 ≢ END) },
}
