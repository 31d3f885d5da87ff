// A node stripped of its edges.
#![tactic(auto)]

pub mod parts;
