// The rows of an image: put into bytes from the columns that hold them, and stored in columns from the bytes. The module `parts`
// has both ways, each once for both kinds of row.
#![tactic(auto)]

pub mod parts;
