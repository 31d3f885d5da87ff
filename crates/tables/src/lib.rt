// The tables that a caller lends: a row of either kind, the network as a call that changes nothing is lent it, and the parts that
// calls are made of. A call answers a `Result`: what it has to tell, or why it was refused; it then changed nothing.
#![tactic(auto)]

pub use network::Network;
pub use row::{Edge, Node};

pub mod network;
pub mod parts;
pub mod row;
