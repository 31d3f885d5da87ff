// Numbers as the programs print them: a digit at a time, straight to standard output, the first one first.
#![tactic(auto)]

ghost use Rattle.std.specs.Prelude.{◌<◌, [], ◌∷◌, OnOk};
ghost use Rattle.std.specs.Io.KnownBytes.{Appends};
ghost use Rattle.printing.specs.Bytes.{glyph};
ghost use Rattle.printing.specs.Digits.{digits};

use printing::parts::{glyph, leading};
use std::io;
use std::io::{Stdout, Write};

// Writes a digit. A writer takes bytes from memory, so the one stands in an array.
fn write_digit<W: Write>(out: &mut W, d: u64) -> io::Result<()>
    requires { d < 10 }
    ensures { OnOk result (Appends (W.contents out.old) (W.contents out.new) (glyph d ∷ [])) }
{
    out.write_all(&[glyph(d)])
}

// Writes x by the loop of `printing::parts::write_number`: 345 is 3 times 100, its rest 45 is 4 times 10, and the rest of that 5 times 1. Each
// power is a tenth of the one before; a tenth of 1 is 0. Where a digit cannot be written the number ends, so that none is missing within it.
// By hand, and not by Display: the digits come from the left and no scratch array is filled (the request behind `Wish6`). Beside
// `write_number`, whose loop it has: that asks for room and cannot fail, and a writer can.
fn write_digits<W: Write>(out: &mut W, x: u64) -> io::Result<()>
    ensures { OnOk result (Appends (W.contents out.old) (W.contents out.new) (digits x)) }
{
    let mut rest = x;
    let mut power = leading(x);
    while 0 < power {
        write_digit(out, rest / power)?;
        rest = rest % power;
        power = power / 10;
    }
    Ok(())
}

// Prints x. Nothing is answered: where x could not be written, a program learns it from its next write, if that fails as well.
pub fn print_number(stdout: &Stdout, x: u64) {
    let _ = write_digits(&mut io::writer(stdout), x);
}
