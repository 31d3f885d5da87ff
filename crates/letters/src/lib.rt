// The letter of a script line says how many numbers stand behind it.
#![tactic(auto)]

ghost use Rattle.std.specs.Prelude.{◌≡◌};
ghost use Rattle.letters.specs.Letters.{operands_of, command_has};

// How many numbers stand behind a letter; `None` where it is no command's.
pub fn operands_of(letter: u8) -> Option<usize>
    ensures { result ≡ command_has (operands_of letter) }
{
    match letter {
        b'E' | b'U' => Some(3),
        b'F' | b'B' => Some(2),
        b'N' | b'X' | b'D' | b'W' | b'G' | b'M' | b'A' => Some(1),
        b'S' | b'C' | b'Z' => Some(0),
        _ => None,
    }
}
