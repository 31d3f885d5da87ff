// The lists of a network: where a link stands, which rows a walk takes, and what it gives for each.
#![tactic(auto)]

use index::{EdgeIndex, NodeIndex};

pub mod parts;

// Where a link stands: at the head of a node's list, or after an edge in it.
#[derive(Clone, Copy)]
pub enum Spot {
    Head(u32),
    After(u32),
}

// Which rows of a list a walk takes, by their far end. A value and no closure: the definitions `picked`, `taken_from`, `picks` and
// `around` are of it, and so is every walk's.
#[derive(Clone, Copy)]
pub enum Pick {
    Every,
    To(NodeIndex),
    NotTo(NodeIndex),
    // To the first, and not to the second.
    ToNot(NodeIndex, NodeIndex),
}

// What a walk gives for a row: its number, the end in whose list it stands, the other end, or its weight. A value, as `Pick` is:
// the definitions `item_of`, `gives`, `around` and `give_three` are of it.
#[derive(Clone, Copy)]
pub enum Item {
    Number,
    Near,
    Far,
    Weight,
}

// The first row that a walk takes; else the link where its list ends, or that it does not end within m rows. Three ways, and no
// Result: callers go on at an end, so it is no refusal, and each of the other two has a meaning of its own.
#[derive(Clone, Copy)]
pub enum Found {
    At(EdgeIndex),
    End(EdgeIndex),
    Broken,
}
