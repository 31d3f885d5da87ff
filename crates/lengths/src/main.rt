// What `printer` prints of the lowest number of each length, of the highest, and of one whose digits stand in a row. The other programs print
// none of more than eight digits by it.
#![tactic(auto)]

use printer::print_number;
use std::io;
use std::io::Stdout;

// Of each length: the lowest number, the highest, and that whose digits stand in a row.
const NUMBERS: [[u64; 3]; 20] = [
    [0, 9, 1],
    [10, 99, 12],
    [100, 999, 123],
    [1000, 9999, 1234],
    [10000, 99999, 12345],
    [100000, 999999, 123456],
    [1000000, 9999999, 1234567],
    [10000000, 99999999, 12345678],
    [100000000, 999999999, 123456789],
    [1000000000, 9999999999, 1234567890],
    [10000000000, 99999999999, 12345678901],
    [100000000000, 999999999999, 123456789012],
    [1000000000000, 9999999999999, 1234567890123],
    [10000000000000, 99999999999999, 12345678901234],
    [100000000000000, 999999999999999, 123456789012345],
    [1000000000000000, 9999999999999999, 1234567890123456],
    [10000000000000000, 99999999999999999, 12345678901234567],
    [100000000000000000, 999999999999999999, 123456789012345678],
    [
        1000000000000000000,
        9999999999999999999,
        1234567890123456789,
    ],
    [
        10000000000000000000,
        18446744073709551615,
        12345678901234567890,
    ],
];

fn line(stdout: &Stdout, lowest: u64, highest: u64, row: u64) -> io::Result<()> {
    print_number(stdout, lowest);
    stdout.write_all(b" ")?;
    print_number(stdout, highest);
    stdout.write_all(b" ")?;
    print_number(stdout, row);
    stdout.write_all(b"\n")
}

fn main(rt: HostRuntime) -> io::Result<()> {
    let stdout = rt.stdout();
    for [lowest, highest, row] in NUMBERS {
        line(&stdout, lowest, highest, row)?;
    }
    Ok(())
}
