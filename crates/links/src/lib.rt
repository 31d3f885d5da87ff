// Where an edge stands in its lists, and links led elsewhere.
#![tactic(auto)]

use lists::Spot;

pub mod parts;

// Where the links that lead to an edge stand, in its outgoing and in its incoming list, and the rows read of both.
#[derive(Clone, Copy)]
pub struct Located {
    pub outgoing: Spot,
    pub incoming: Spot,
    pub rows: u32,
}
