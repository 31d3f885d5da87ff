// What one answer adds to a loop's sum: its number, which is 0 where it is served, and its value.
ghost use Rattle.std.specs.Prelude.{◌≡◌, ℕ, ◌≤◌, length};
ghost use Rattle.tables.specs.Answers.{told_as, told_items};
ghost use Rattle.loops.specs.Loops.{adds, in64, total, totalled};

use index::{EdgeIndex, NodeIndex, Refusal};
use removal::RemovedEdge;

// A value that a call tells, as a number.
pub trait Addend {
    ghost addend_of: { Self → ℕ };

    fn addend(self) -> u64
        ensures { result ≡ addend_of self };
}

impl Addend for NodeIndex {
    ghost addend_of = { λ a. a.0 };

    fn addend(self) -> u64 {
        self.0 as u64
    }
}

impl Addend for EdgeIndex {
    ghost addend_of = { λ e. e.0 };

    fn addend(self) -> u64 {
        self.0 as u64
    }
}

// Of a removal the edge's weight counts.
impl Addend for RemovedEdge {
    ghost addend_of = { λ x. x.weight };

    fn addend(self) -> u64 {
        self.weight as u64
    }
}

pub fn adds<T: Addend + Copy>(answer: Result<T, Refusal>) -> u64
    ensures { result ≡ adds (told_as T.addend_of 0 answer) }
{
    match answer {
        Ok(x) => x.addend(),
        Err(why) => why.number() as u64,
    }
}

// Of a walk the items count that it gave.
pub fn items_add(answer: Result<u32, Refusal>, items: &[u32]) -> u64
    requires { (told_items answer).values ≤ length items.now }
    ensures { result ≡ in64 (adds (totalled (told_items answer) items.now)) }
{
    match answer {
        Ok(c) => total(&items[..c as usize]),
        Err(why) => why.number() as u64,
    }
}

#[tactic(auto, using(crate::proofs::Laws::total_more))]
pub fn total(items: &[u32]) -> u64
    ensures { result ≡ in64 (total items.now) }
{
    let mut sum: u64 = 0;
    for &x in items {
        sum = sum.wrapping_add(x as u64);
    }
    sum
}
