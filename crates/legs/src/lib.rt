// A walk as two legs, one after the other: both lists are gone along before anything is written. The module `parts` has a leg, and what two of them give.
#![tactic(auto)]

pub mod parts;
