// The answer line of a command, written whole or not at all.
#![tactic(auto)]

ghost use Rattle.std.specs.Prelude.{◌≡◌};
ghost use Rattle.reply.specs.Replies.{bare_reply};

pub mod parts;

// A value of an answer line: a number, or the `-` that stands where no row moved.
#[derive(Clone, Copy)]
pub enum Value {
    Number(i64),
    NoRow,
}

// What a command answers: its letter, the answer number, the values that it has, and how many items of the output table follow.
#[derive(Clone, Copy)]
pub struct Reply {
    pub letter: u8,
    pub number: u32,
    pub first: Option<Value>,
    pub second: Option<Value>,
    pub third: Option<Value>,
    pub items: usize,
}

impl Reply {
    // A letter and a number alone: a refusal, or a command that has nothing to tell.
    pub fn bare(letter: u8, number: u32) -> Reply
        ensures { result ≡ bare_reply letter number }
    {
        Reply {
            letter,
            number,
            first: None,
            second: None,
            third: None,
            items: 0,
        }
    }
}
