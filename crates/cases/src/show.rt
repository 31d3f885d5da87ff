// How a case is printed: a space before each number and each byte, `END` by name, and bytes in hexadecimal.
use printer::print_number;
use std::io;
use std::io::Stdout;

pub fn text(stdout: &Stdout, s: &[u8]) -> io::Result<()> {
    stdout.write_all(s)
}

fn number(stdout: &Stdout, x: u32) -> io::Result<()> {
    if x == 4294967295 {
        return text(stdout, b" END");
    }
    text(stdout, b" ")?;
    print_number(stdout, x as u64);
    Ok(())
}

pub fn cells(stdout: &Stdout, label: &[u8], column: &[u32]) -> io::Result<()> {
    text(stdout, label)?;
    for x in column {
        number(stdout, *x)?;
    }
    text(stdout, b"\n")
}

// The last hexadecimal digit, in capital letters, which std's `from_digit` has not.
fn digit(x: u8) -> u8 {
    let last = x % 16;
    if last < 10 {
        return b'0' + last;
    }
    b'A' - 10 + last
}

pub fn bytes(stdout: &Stdout, label: &[u8], column: &[u8]) -> io::Result<()> {
    text(stdout, label)?;
    for x in column {
        let shown = [b' ', digit(*x / 16), digit(*x)];
        text(stdout, &shown)?;
    }
    text(stdout, b"\n")
}
