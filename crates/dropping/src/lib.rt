// A node without edges dropped.
#![tactic(auto)]

pub mod parts;
