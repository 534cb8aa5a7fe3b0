// Reading bytes that are written as hexadecimal digits.
#![tactic(auto)]

ghost use Rattle.std.specs.Prelude.{◌≡◌, ◌<◌, set, IfSome, position};
ghost use Rattle.plan_text.specs.Lines.{ends_line};
ghost use Rattle.hex_text.specs.Hex.{HexIs};
ghost use Rattle.hex_text.specs.Walk.{WorthIs, Put, finished_as};

// Why `read_hex` refuses; lines and columns are counted from 1.
#[derive(Clone, Copy, Debug, PartialEq, Eq)]
pub enum HexError {
    // A character that is no digit.
    WrongCharacter { line: u64, column: u64 },
    // The last digit, on that line, has no other beside it.
    OddDigits { line: u64 },
}

// The digits so far: how many bytes they make, the one that is left over, if one is, and the line of the last.
#[derive(Clone, Copy)]
struct Digits {
    count: usize,
    high: Option<u8>,
    last: u64,
}

// The bytes of a text, two digits each, put at the front of a buffer as far as it has room, and how many there are. Half the text's length is room enough.
pub fn read_hex(text: &[u8], bytes: &mut [u8]) -> Result<usize, HexError>
    ensures { HexIs text.now bytes.new result }
{
    let mut digits = Digits {
        count: 0,
        high: None,
        last: 0,
    };
    let (mut line, mut column, mut at) = (0, 0, 0);
    // Kept: each byte is gone over once; `split` into lines goes over it to find the line's end and again for what it says.
    while at < text.len() {
        let byte = text[at];
        if byte == b'\n' {
            line += 1;
            column = 0;
            at += 1;
        } else if byte == plan_text::HASH {
            let Some(end) = line_feed(&text[at..]) else {
                return finished(digits);
            };
            line += 1;
            column = 0;
            at += end + 1;
        } else {
            if !plan_text::is_blank(byte) {
                let Some(digit) = worth(byte) else {
                    return Err(HexError::WrongCharacter {
                        line: line + 1,
                        column: column + 1,
                    });
                };
                digits = put(digits, digit, line + 1, bytes);
            }
            column += 1;
            at += 1;
        }
    }
    finished(digits)
}

// The place of the first line feed; nothing where there is none.
// Kept: `find_byte` of plan_text answers the text's length there, and takes a place to look from, which costs more than a comment of a few characters.
fn line_feed(text: &[u8]) -> Option<usize>
    ensures { result ≡ position ends_line text.now }
{
    text.iter().position(|b| *b == b'\n')
}

// What a byte is worth as a digit; nothing where it is none.
fn worth(byte: u8) -> Option<u8>
    ensures { WorthIs byte result }
{
    let digit = (byte as char).to_digit(16)?;
    Some(digit as u8)
}

// One digit more, on a line.
// Kept: no copying by hand: a byte comes of every second digit, so the first of two waits in `high`.
fn put(digits: Digits, digit: u8, line: u64, bytes: &mut [u8]) -> Digits
    requires count { digits.count < 18446744073709551615 }
    requires high { IfSome digits.high (λ high. high < 16) }
    requires digit { digit < 16 }
    ensures { Put digits digit line bytes.old bytes.new result }
{
    match digits.high {
        Some(high) => {
            store(bytes, digits.count, 16 * high + digit);
            Digits {
                count: digits.count + 1,
                high: None,
                last: line,
            }
        }
        None => Digits {
            count: digits.count,
            high: Some(digit),
            last: line,
        },
    }
}

// Puts a byte at a place of a buffer, where there is room.
fn store(bytes: &mut [u8], at: usize, byte: u8)
    ensures { bytes.new ≡ set bytes.old at byte }
{
    if at < bytes.len() {
        bytes[at] = byte;
    }
}

// The answer behind the last digit.
fn finished(digits: Digits) -> Result<usize, HexError>
    ensures { result ≡ finished_as digits }
{
    match digits.high {
        Some(_) => Err(HexError::OddDigits { line: digits.last }),
        None => Ok(digits.count),
    }
}
