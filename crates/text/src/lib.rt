// Numbers read, and lines cut: the leaves of the script language.
#![tactic(auto)]

pub mod parts;
