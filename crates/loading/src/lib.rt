// An image of version 1 loaded: its rows are stored and checked, and stay or go. The module `parts` has what stands behind mark and version.
#![tactic(auto)]

pub mod parts;
