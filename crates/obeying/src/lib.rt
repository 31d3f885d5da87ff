// A line of a script obeyed: its letter and its numbers are read, and its command is done. The module `parts` has both.
#![tactic(auto)]

pub mod parts;
