// Reading texts of bytes: looking up a word, finding a byte, and numbers in decimal digits.
#![tactic(auto)]

ghost use Rattle.std.specs.Prelude.{◌≡◌, ◌+◌, ◌==◌, min, drop, eqb, position};
ghost use Rattle.plan_text.specs.Bytes.{reach};
ghost use Rattle.plan_text.specs.Digits.{number_to};
ghost use Rattle.plan_text.specs.Lines.{is_blank, is_end};
ghost use Rattle.plan_text.specs.Table.{looked_up};

// What stands beside the first entry of a table with a word.
pub fn look_up<T: Copy>(table: &[(&[u8], T)], word: &[u8]) -> Option<T>
    ensures { result ≡ looked_up table.now word.now }
{
    let (_, value) = table.iter().find(|(name, _)| word == *name)?;
    Some(*value)
}

// The place of the first `byte` at `from` or behind it; the text's end where there is none.
pub fn find_byte(text: &[u8], from: usize, byte: u8) -> usize
    ensures { result ≡ from + reach (λ b. eqb b byte) (drop from text.now) }
{
    match steps_to(text, from, byte) {
        Some(steps) => from + steps,
        None => from.max(text.len()),
    }
}

// How many bytes stand before the first `byte` behind a place; nothing where there is none.
fn steps_to(text: &[u8], from: usize, byte: u8) -> Option<usize>
    ensures { result ≡ position (λ b. b == byte) (drop from text.now) }
{
    text.iter().skip(from).position(|b| *b == byte)
}

// What starts a comment.
pub const HASH: u8 = b'#';

// Whether a byte is white space within a line: a space, a tab or a carriage return.
pub fn is_blank(byte: u8) -> bool
    ensures { result ≡ is_blank byte }
{
    matches!(byte, b' ' | b'\t' | b'\r')
}

// Whether a byte ends a token: a line feed, the # of a comment, a space, a tab or a carriage return.
pub fn is_end(byte: u8) -> bool
    ensures { result ≡ is_end byte }
{
    (byte == b'\n') | (byte == HASH) | is_blank(byte)
}

// The place past a byte that was found, or the end where there is none.
pub fn past(place: usize, end: usize) -> usize
    ensures { result ≡ min (place + 1) end }
{
    place.saturating_add(1).min(end)
}

// The largest number that `read_digits` takes: fifteen nines, which binary64 holds exactly.
const MOST: u64 = 999_999_999_999_999;

// Kept: `parse` takes a sign, refuses an empty text and goes on to 64 bits; here an empty text counts as 0 and fifteen nines are the most.
// The number of a text of digits; none where a byte is not a digit or the number is more than `MOST`.
pub fn read_digits(text: &[u8]) -> Option<u64>
    ensures { result ≡ number_to 999_999_999_999_999 text.now }
{
    let mut number: u64 = 0;
    for byte in text {
        if !byte.is_ascii_digit() {
            return None;
        }
        number = number * 10 + u64::from(*byte - b'0');
        if MOST < number {
            return None;
        }
    }
    Some(number)
}
