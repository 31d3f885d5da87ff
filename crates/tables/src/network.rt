// The network as it is lent to a call that changes nothing: its columns and counts, one value.
ghost use Rattle.std.specs.Prelude.{◌≡◌};
ghost use Rattle.tables.specs.Net.{net_of, fits};

use crate::parts::fits;

// Five columns and two counts. A call that changes some takes them one by one: its signature then says which it may change.
#[derive(Clone, Copy)]
pub struct Network<'a> {
    pub weights: &'a [i32],
    pub heads: &'a [u32],
    pub registers: &'a [u32],
    pub links: &'a [u32],
    pub ends: &'a [u32],
    pub n: u32,
    pub m: u32,
}

impl Network<'_> {
    // The columns are within the limits, agree in rows and hold the counts; else every call is refused 1.
    pub fn fits(self) -> bool
        ensures { result ≡ fits (net_of self.entry) }
    {
        fits(
            self.weights,
            self.heads,
            self.registers,
            self.links,
            self.ends,
            self.n,
            self.m,
        )
    }
}
