// What measures and writes numbers. Each asks for the room that it touches.
ghost use Rattle.std.specs.Prelude.{◌≡◌, ◌+◌, ◌*◌, ◌-◌, ◌^◌, ◌<◌, ◌≤◌, [], ◌∷◌, nat_abs, length};
ghost use Rattle.printing.specs.Bytes.{glyph};
ghost use Rattle.printing.specs.Digits.{digits, signed, field, fields_text};
ghost use Rattle.printing.specs.Parts.{Measures, Writes};

// Numbers out. A caller measures a line by the widths, then writes it in place. Each writer is lent the whole output and a place in it, and tells
// where its text ends: slices of what is left would be no plainer, since whoever writes next, and the run at its end, wants that place.

// How many digits x has.
pub fn width(x: u64) -> usize
    ensures { Measures (digits x) 20 result }
{
    let mut rest = x;
    let mut wide: usize = 1;
    while 10 <= rest {
        rest = rest / 10;
        wide += 1;
    }
    wide
}

// The power of ten that the first digit of x counts: 1 for 7, 100 for 345. It is held to x / 10 before it grows: ten times the highest power
// is no u64.
pub fn leading(x: u64) -> u64
    ensures { result ≡ 10 ^ (length (digits x) - 1) }
{
    let most = x / 10;
    let mut power: u64 = 1;
    while power <= most {
        power = power * 10;
    }
    power
}

// The byte of a digit: `0` to `9` stand in a row.
pub fn glyph(d: u64) -> u8
    requires { d < 10 }
    ensures { result ≡ glyph d }
{
    b'0' + (d as u8)
}

// Writes the digits of x, the first one first: 345 is 3 times 100, its rest 45 is 4 times 10, and the rest of that 5 times 1. Each power is a
// tenth of the one before; a tenth of 1 is 0, which ends the loop.
pub fn write_number(out: &mut [u8], at: usize, x: u64) -> usize
    requires { at + length (digits x) ≤ length out.old }
    ensures { Writes out.old out.new at (digits x) result }
{
    let mut to = at;
    let mut rest = x;
    let mut power = leading(x);
    while 0 < power {
        out[to] = glyph(rest / power);
        to += 1;
        rest = rest % power;
        power = power / 10;
    }
    to
}

pub fn write_byte(out: &mut [u8], at: usize, b: u8) -> usize
    requires { at < length out.old }
    ensures { Writes out.old out.new at (b ∷ []) result }
{
    out[at] = b;
    at + 1
}

// How far z is from 0. The lowest number has no opposite of its own type.
fn absolute(z: i64) -> u64
    ensures { result ≡ nat_abs z }
{
    z.unsigned_abs()
}

pub fn signed_width(z: i64) -> usize
    ensures { Measures (signed z) 20 result }
{
    if z < 0 {
        return 1 + width(absolute(z));
    }
    width(absolute(z))
}

pub fn write_signed(out: &mut [u8], at: usize, z: i64) -> usize
    requires { at + length (signed z) ≤ length out.old }
    ensures { Writes out.old out.new at (signed z) result }
{
    if z < 0 {
        let to = write_byte(out, at, b'-');
        return write_number(out, to, absolute(z));
    }
    write_number(out, at, absolute(z))
}

pub fn write_field(out: &mut [u8], at: usize, x: u64) -> usize
    requires { at + length (field (digits x)) ≤ length out.old }
    ensures { Writes out.old out.new at (field (digits x)) result }
{
    let to = write_byte(out, at, b' ');
    write_number(out, to, x)
}

// Beside `write_field`: two lines each. One function over both would ask of a trait the text, and the write of it, that `write_number` and
// `write_signed` have already.
pub fn write_signed_field(out: &mut [u8], at: usize, z: i64) -> usize
    requires { at + length (field (signed z)) ≤ length out.old }
    ensures { Writes out.old out.new at (field (signed z)) result }
{
    let to = write_byte(out, at, b' ');
    write_signed(out, to, z)
}

// How many bytes a list of numbers takes, each with its space.
pub fn fields_width(fields: &[u32]) -> usize
    requires { length fields.now ≤ 65536 }
    ensures { Measures (fields_text fields.now) (11 * length fields.now) result }
{
    let mut wide: usize = 0;
    for x in fields {
        wide += 1 + width(*x as u64);
    }
    wide
}

pub fn write_fields(out: &mut [u8], at: usize, fields: &[u32]) -> usize
    requires { at + length (fields_text fields.now) ≤ length out.old }
    ensures { Writes out.old out.new at (fields_text fields.now) result }
{
    let mut to = at;
    for x in fields {
        to = write_field(out, to, *x as u64);
    }
    to
}
