// The numbers behind a letter, and a whole line.
ghost use Rattle.std.specs.Prelude.{◌≡◌, ◌≤◌};
ghost use Rattle.commands.specs.Commands.{replied};
ghost use Rattle.letters.specs.Letters.{operands_of};
ghost use Rattle.dispatch.specs.Step.{state_of};
ghost use Rattle.dispatch.specs.Parts.{SameTables};
ghost use Rattle.obeying.specs.Line.{numbers_behind, line_answer};
ghost use Rattle.obeying.specs.Parts.{behind_of, ReadAs};

use commands::parts::refused;
use dispatch::{Desk, Numbers, dispatch};
use index::Refusal;
use letters::operands_of;
use reply::Reply;
use text::parts::{read_operands, read_weight_operand};

// The numbers of a command: a node weight behind an N, `count` others behind any other letter.
fn read_numbers(text: &[u8], letter: u8, count: usize) -> Option<Numbers>
    requires { (count ≡ operands_of letter) × (count ≤ 3) }
    ensures { result ≡ behind_of (numbers_behind letter text.now) }
{
    if letter == b'N' {
        let w = read_weight_operand(text)?;
        return Some(Numbers {
            w,
            a: 0,
            b: 0,
            c: 0,
        });
    }
    let [a, b, c] = read_operands(text, count)?;
    Some(Numbers { w: 0, a, b, c })
}

// A line's letter, and the numbers behind it.
fn read_line(line: &[u8]) -> Option<(u8, Numbers)>
    ensures { ReadAs line.now result }
{
    let [letter, text @ ..] = line else {
        return None;
    };
    let count = operands_of(*letter)?;
    let numbers = read_numbers(text, *letter, count)?;
    Some((*letter, numbers))
}

// Obeys a line.
pub fn answer_line(line: &[u8], desk: &mut Desk) -> Reply
    ensures does { replied result (state_of desk.new) ≡ line_answer line.now (state_of desk.old) }
    ensures same { SameTables desk.old desk.new }
{
    match read_line(line) {
        Some((letter, numbers)) => dispatch(desk, letter, numbers),
        None => refused(b'?', Refusal::NotCommand),
    }
}
