// Numbers and fields as they are printed: measured, then written in place. The module `parts` has both.
#![tactic(auto)]

pub mod parts;
