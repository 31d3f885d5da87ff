// What the commands are made of: what a call answers, as a reply.
ghost use Rattle.std.specs.Prelude.{◌≡◌, ℕ};
ghost use Rattle.index.specs.Refusals.{refusal_no};
ghost use Rattle.sound.specs.Check.{told_checked};
ghost use Rattle.removal.specs.Removal.{moved_no};
ghost use Rattle.closing.specs.Closing.{told_node_removed};
ghost use Rattle.reply.specs.declared.Reply.{Reply};
ghost use Rattle.reply.specs.Replies.{bare_reply};
ghost use Rattle.commands.specs.Commands.{nothing, one_value, one_number, counted, edge_gone, node_gone, rows_read, reply_to};
ghost use Rattle.commands.specs.Parts.{FewRows, reply_of};

use closing::RemovedNode;
use index::{EdgeIndex, NodeIndex, Refusal};
use removal::RemovedEdge;
use reply::{Reply, Value};
use sound::Fault;

// What a served call answers, as the reply of its command.
pub trait ToReply: Copy {
    ghost served: { ℕ → Self → Reply };

    fn to_reply(self, letter: u8) -> Reply
        ensures { result ≡ served letter self };
}

impl ToReply for NodeIndex {
    ghost served = { λ letter a. one_number letter a.0 };

    fn to_reply(self, letter: u8) -> Reply {
        value(letter, self.0 as i64)
    }
}

impl ToReply for EdgeIndex {
    ghost served = { λ letter e. one_number letter e.0 };

    fn to_reply(self, letter: u8) -> Reply {
        value(letter, self.0 as i64)
    }
}

impl ToReply for () {
    ghost served = { nothing };

    fn to_reply(self, letter: u8) -> Reply {
        Reply::bare(letter, 0)
    }
}

impl ToReply for i64 {
    ghost served = { one_value };

    fn to_reply(self, letter: u8) -> Reply {
        value(letter, self)
    }
}

// The count, and as many items.
impl ToReply for u32 {
    ghost served = { counted };

    fn to_reply(self, letter: u8) -> Reply {
        Reply {
            items: self as usize,
            ..value(letter, self as i64)
        }
    }
}

// Where no row moved, that is told.
impl ToReply for RemovedEdge {
    ghost served = { λ letter x. edge_gone letter (x.weight, moved_no x.moved, x.rows) };

    fn to_reply(self, letter: u8) -> Reply {
        let moved = match self.moved {
            Some(e) => Value::Number(e.0 as i64),
            None => Value::NoRow,
        };
        Reply {
            second: Some(moved),
            third: Some(Value::Number(self.rows as i64)),
            ..value(letter, self.weight as i64)
        }
    }
}

// The letter and why.
pub fn refused(letter: u8, why: Refusal) -> Reply
    ensures { result ≡ bare_reply letter (refusal_no why) }
{
    Reply::bare(letter, why.number())
}

// One value.
pub fn value(letter: u8, z: i64) -> Reply
    ensures { result ≡ one_value letter z }
{
    Reply {
        first: Some(Value::Number(z)),
        ..Reply::bare(letter, 0)
    }
}

pub fn reply_of<T: ToReply>(letter: u8, answer: Result<T, Refusal>) -> Reply
    ensures { result ≡ reply_of letter T.served answer }
{
    match answer {
        Ok(told) => told.to_reply(letter),
        Err(why) => refused(letter, why),
    }
}

// A fault's place is not told. It is no refusal, so this is no `reply_of`.
pub fn check_reply(letter: u8, answer: Result<u32, Fault>) -> Reply
    ensures { result ≡ reply_to letter rows_read (told_checked answer) }
{
    match answer {
        Ok(rows) => value(letter, rows as i64),
        Err(Fault::At(_, _)) => refused(letter, Refusal::Broken),
        Err(Fault::Refused(why)) => refused(letter, why),
    }
}

// Nor is this one: it asks that the rows read can be told as a signed number.
pub fn node_removed_reply(letter: u8, answer: Result<RemovedNode, Refusal>) -> Reply
    requires { FewRows answer }
    ensures { result ≡ reply_to letter node_gone (told_node_removed answer) }
{
    match answer {
        Ok(gone) => Reply {
            second: Some(Value::Number(gone.rows as i64)),
            third: Some(Value::Number(gone.count as i64)),
            items: gone.count as usize,
            ..value(letter, gone.weight as i64)
        },
        Err(why) => refused(letter, why),
    }
}
