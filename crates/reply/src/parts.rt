// What measures and writes an answer line. Each asks for the room and the items that it touches.
ghost use Rattle.std.specs.Prelude.{◌≡◌, ◌+◌, ◌*◌, ◌≤◌, length};
ghost use Rattle.printing.specs.Parts.{Measures, Writes};
ghost use Rattle.reply.specs.Replies.{value_field, values_text, line_of};
ghost use Rattle.reply.specs.Parts.{Listed, Room, head_text, answered};

use crate::{Reply, Value};
use printing::parts::{
    fields_width, signed_width, width, write_byte, write_field, write_fields, write_signed_field,
};

// How many bytes a value takes with its space: none where the reply has it not.
fn value_width(value: Option<Value>) -> usize
    ensures { Measures (value_field value) 21 result }
{
    match value {
        None => 0,
        Some(Value::NoRow) => 2,
        Some(Value::Number(z)) => 1 + signed_width(z),
    }
}

fn values_width(reply: Reply) -> usize
    ensures { Measures (values_text reply) 63 result }
{
    value_width(reply.first) + value_width(reply.second) + value_width(reply.third)
}

// How many bytes the line takes: letter, number with its space, values, items, newline.
pub fn line_width(reply: Reply, items: &[u32]) -> usize
    requires { Listed reply items.now }
    ensures { Measures (line_of reply items.now) (86 + 11 * reply.items) result }
{
    let head = 1 + 1 + width(reply.number as u64) + values_width(reply);
    head + fields_width(&items[..reply.items]) + 1
}

fn write_value(out: &mut [u8], at: usize, value: Option<Value>) -> usize
    requires { at + length (value_field value) ≤ length out.old }
    ensures { Writes out.old out.new at (value_field value) result }
{
    match value {
        None => at,
        Some(Value::NoRow) => {
            let to = write_byte(out, at, b' ');
            write_byte(out, to, b'-')
        }
        Some(Value::Number(z)) => write_signed_field(out, at, z),
    }
}

fn write_values(out: &mut [u8], at: usize, reply: Reply) -> usize
    requires { at + length (values_text reply) ≤ length out.old }
    ensures { Writes out.old out.new at (values_text reply) result }
{
    let second = write_value(out, at, reply.first);
    let third = write_value(out, second, reply.second);
    write_value(out, third, reply.third)
}

// What stands before the items: letter, answer number, values.
fn write_head(out: &mut [u8], at: usize, reply: Reply) -> usize
    requires { at + length (head_text reply) ≤ length out.old }
    ensures { Writes out.old out.new at (head_text reply) result }
{
    let number = write_byte(out, at, reply.letter);
    let values = write_field(out, number, reply.number as u64);
    write_values(out, values, reply)
}

pub fn write_line(out: &mut [u8], at: usize, reply: Reply, items: &[u32]) -> usize
    requires { Listed reply items.now × (at + length (line_of reply items.now) ≤ length out.old) }
    ensures { Writes out.old out.new at (line_of reply items.now) result }
{
    let listed = write_head(out, at, reply);
    let count = reply.items;
    let newline = write_fields(out, listed, &items[..count]);
    write_byte(out, newline, b'\n')
}

// Writes the line behind the answers so far, which end at `at`, where it ends at `limit` or before: whole or not at all. Where the answers
// end then; `None` where the line did not fit.
pub fn answer(out: &mut [u8], at: usize, limit: usize, reply: Reply, items: &[u32]) -> Option<usize>
    requires { Listed reply items.now × Room at limit out.old }
    ensures { (result, out.new) ≡ answered out.old at limit (line_of reply items.now) }
{
    if limit - at < line_width(reply, items) {
        return None;
    }
    Some(write_line(out, at, reply, items))
}
