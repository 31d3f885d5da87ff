// What reads text.
ghost use Rattle.std.specs.Prelude.{◌≡◌, ◌-◌, ◌≤◌, true, length};
ghost use Rattle.text.specs.Bytes.{is_digit};
ghost use Rattle.text.specs.Numbers.{are_digits, value_on, weight, operands, weight_operand};
ghost use Rattle.text.specs.Parts.{EndsLine, run, read_digits, read_whole, read_number, read_field, three_of, weight_of};

// A number that a text begins with comes with how many bytes it takes; what is no number is `None`.

// The most digits that a number may have.
const MOST_DIGITS: usize = 10;

fn is_digit(b: u8) -> bool
    ensures { result ≡ is_digit b }
{
    b.is_ascii_digit()
}

// The value of one digit. std's `to_digit` is of a char, and would answer an Option that no caller needs.
fn digit(b: u8) -> u64
    requires { 48 ≤ b }
    ensures { result ≡ b - 48 }
{
    (b - b'0') as u64
}

// How many digits a text begins with.
fn run_len(text: &[u8]) -> usize
    ensures { result ≡ length (run text.now) }
{
    text.iter()
        .position(|b| !is_digit(*b))
        .unwrap_or(text.len())
}

// The value of at most ten digits, which 64 bits hold.
fn value_of(digits: &[u8]) -> u64
    requires { (are_digits digits.now ≡ true) × (length digits.now ≤ 10) }
    ensures { result ≡ value_on 0 digits.now }
{
    let mut value: u64 = 0;
    for b in digits {
        value = value * 10 + digit(*b);
    }
    value
}

// The digits that a text begins with, 1 to 10: their value, which may not fit 32 bits, and how many they are. One more tells that they are
// too many, so no byte behind it is read.
fn read_digits(text: &[u8]) -> Option<(u64, usize)>
    ensures { result ≡ read_digits 0 text.now }
{
    let front = &text[..text.len().min(MOST_DIGITS + 1)];
    let len = run_len(front);
    if len == 0 || MOST_DIGITS < len {
        return None;
    }
    Some((value_of(&text[..len]), len))
}

// The same where nothing may stand behind the digits.
fn read_whole(text: &[u8]) -> Option<(u64, usize)>
    ensures { result ≡ read_whole (length text.now) text.now }
{
    let (value, len) = read_digits(text)?;
    if len != text.len() {
        return None;
    }
    Some((value, len))
}

// The unsigned number that a text begins with, and how many digits it has.
pub fn read_number(text: &[u8]) -> Option<(u32, usize)>
    ensures { result ≡ read_number 0 text.now }
{
    let (value, len) = read_digits(text)?;
    let x = u32::try_from(value).ok()?;
    Some((x, len))
}

// The node weight that a text spells.
pub fn read_weight(text: &[u8]) -> Option<i32>
    ensures { result ≡ weight_of (weight text.now) }
{
    let [first, digits @ ..] = text else {
        return None;
    };
    if *first == b'-' {
        let (value, _) = read_whole(digits)?;
        return i32::try_from(0 - (value as i64)).ok();
    }
    let (value, _) = read_whole(text)?;
    i32::try_from(value).ok()
}

// One space and a number, and how many bytes these are.
fn read_field(text: &[u8]) -> Option<(u32, usize)>
    ensures { result ≡ read_field 0 text.now }
{
    let [first, field @ ..] = text else {
        return None;
    };
    if *first != b' ' {
        return None;
    }
    let (x, len) = read_number(field)?;
    Some((x, 1 + len))
}

// What stands behind a command's letter: `count` numbers, one space before each. Those that it has not are 0.
pub fn read_operands(text: &[u8], count: usize) -> Option<[u32; 3]>
    requires { count ≤ 3 }
    ensures { result ≡ three_of (operands count text.now) }
{
    let mut numbers = [0u32; 3];
    let mut rest = text;
    for k in 0..count {
        let (x, len) = read_field(rest)?;
        numbers[k] = x;
        rest = &rest[len..];
    }
    if !rest.is_empty() {
        return None;
    }
    Some(numbers)
}

// What stands behind an `N`: one space and a node weight.
pub fn read_weight_operand(text: &[u8]) -> Option<i32>
    ensures { result ≡ weight_of (weight_operand text.now) }
{
    let [first, field @ ..] = text else {
        return None;
    };
    if *first != b' ' {
        return None;
    }
    read_weight(field)
}

// Where the line from `at` on ends: its newline, or the end of the script. In places of the script, from which the run goes on.
pub fn line_end(script: &[u8], at: usize) -> usize
    requires { at ≤ length script.now }
    ensures { EndsLine script.now at result }
{
    let text = &script[at..];
    at + text.iter().position(|b| *b == b'\n').unwrap_or(text.len())
}
