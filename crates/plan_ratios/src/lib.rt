// Reading signal-to-mask ratios, in decibels, from a text.
#![tactic(auto)]

ghost use Rattle.std.specs.Prelude.{◌≡◌, ◌+◌, ◌*◌, ◌^◌, ◌<◌, ◌≤◌, [], ◌∷◌, length, map, MatchResult};
ghost use Rattle.tables.specs.Decimal.{decimal};
ghost use Rattle.plan_ratios.specs.Ratio.{few, pointed, unsigned, signed, word_value, ratio_of};
ghost use Rattle.plan_text.specs.Bytes.{pieces};
ghost use Rattle.plan_text.specs.Lines.{ends_line};
ghost use Rattle.plan_ratios.specs.Ratios.{ratios_of};
ghost use Rattle.plan_ratios.specs.Tokens.{on_line, tokens_from};
ghost use Rattle.plan_ratios.specs.Walk.{Filled, Passed, Refused};

// The words that are no numbers, and the ratios that they stand for.
const WORDS: [(&[u8], f64); 3] = [
    (b"inf", f64::INFINITY),
    (b"-inf", f64::NEG_INFINITY),
    (b"nan", f64::NAN),
];

// The ratio that a token stands for: the binary64 nearest to its digits; nothing where it is not written as one.
pub fn read_ratio(token: &[u8]) -> Option<f64>
    ensures { result ≡ ratio_of token.now }
{
    read_word(token).or(read_signed(token))
}

// The ratio of a word that is no number.
fn read_word(token: &[u8]) -> Option<f64>
    ensures { result ≡ word_value token.now }
{
    plan_text::look_up(&WORDS, token)
}

// A number with a sign or without.
fn read_signed(token: &[u8]) -> Option<f64>
    ensures { result ≡ signed token.now }
{
    match token {
        [b'-', size @ ..] => read_unsigned(size).map(|x| -x),
        [b'+', size @ ..] => read_unsigned(size),
        _ => read_unsigned(token),
    }
}

// A number without its sign.
fn read_unsigned(token: &[u8]) -> Option<f64>
    ensures { result ≡ unsigned token.now }
{
    // Kept: the digits before the point and those behind it are parts of the token that is read, and no buffer that is filled.
    match token.iter().position(|b| *b == b'.') {
        Some(point) => read_pointed(&token[..point], &token[point + 1..]),
        None => read_pointed(token, b""),
    }
}

// A number from the digits before its point and those behind it.
fn read_pointed(front: &[u8], back: &[u8]) -> Option<f64>
    ensures { result ≡ pointed front.now back.now }
{
    if !are_few(front.len(), back.len()) {
        return None;
    }
    let whole = plan_text::read_digits(front)?;
    let fraction = plan_text::read_digits(back)?;
    Some(nearest_decimal(whole, fraction, back.len()))
}

// Whether two counts are 1 to 15 together.
fn are_few(a: usize, b: usize) -> bool
    ensures { result ≡ few (a + b) }
{
    let digits = a.saturating_add(b);
    (1 <= digits) & (digits <= 15)
}

// whole + fraction / 10^places, rounded once: both numbers that are divided are exact in binary64.
fn nearest_decimal(whole: u64, fraction: u64, places: usize) -> f64
    requires { (places ≤ 15) × (whole * 10 ^ places + fraction < 10 ^ 15) }
    ensures { result ≡ decimal places (whole * 10 ^ places + fraction) }
{
    let scale = 10u64.pow(places as u32);
    let digits = whole * scale + fraction;
    std::num::nearest_u64_to_f64(digits) / std::num::nearest_u64_to_f64(scale)
}

// Why `read_ratios` refuses: lines are counted from 1, and `count` ratios were read before.
#[derive(Clone, Copy, Debug, PartialEq, Eq)]
pub enum RatiosError {
    // A token that is no ratio.
    NotARatio { line: u64, count: usize },
    // A token behind the last slot.
    TooMany { line: u64, count: usize },
    // The text ends, with this line, before the last slot is filled.
    TooFew { line: u64, count: usize },
}

// The ratios of a text that is accepted, and how many they are; those behind them have 0.0.
#[derive(Clone, Copy)]
pub struct Ratios {
    pub count: usize,
    pub ratios: [f64; 64],
}

// The ratios of a text, one for each slot, in their order: slot 32 * channel + subband, channel 0's first. 64 slots at most.
pub fn read_ratios(text: &[u8], slots: usize) -> Result<Ratios, RatiosError>
    ensures { result ≡ ratios_of slots text.now }
{
    let mut read = Slots {
        ratios: [0.0; 64],
        count: 0,
        wanted: slots.min(64),
    };
    read.take_text(text)?;
    let count = read.count;
    if read.count < read.wanted {
        let line = count_lines(text);
        return Err(RatiosError::TooFew { line, count });
    }
    Ok(Ratios {
        count,
        ratios: read.ratios,
    })
}

// The slots: how many are wanted, and the ratios of the first `count`; those behind them have 0.0.
#[derive(Drop)]
struct Slots {
    ratios: [f64; 64],
    count: usize,
    wanted: usize,
}

impl Slots {
    // The ratios of a text.
    fn take_text(&mut self, text: &[u8]) -> Result<(), RatiosError>
        requires { Filled self.old }
        ensures { MatchResult result (λ _. Passed (tokens_from 1 text.now) self.old self.new) (Refused (tokens_from 1 text.now) self.old) }
    {
        // Kept: `split` goes over a line three times, and each of many line feeds and blanks would be a part: an input of these took up to 2.8 times as long.
        let (mut line, mut start, mut at) = (1, 0, 0);
        while at < text.len() {
            let byte = text[at];
            if plan_text::is_end(byte) {
                if start < at {
                    self.take(&text[start..at], line)?;
                }
                if byte == plan_text::HASH {
                    at = plan_text::find_byte(text, at, b'\n');
                } else {
                    if byte == b'\n' {
                        line += 1;
                    }
                    at += 1;
                }
                start = at;
            } else {
                at += 1;
            }
        }
        if start < text.len() {
            self.take(&text[start..], line)?;
        }
        Ok(())
    }

    // The ratio of a token that stands on a line.
    fn take(&mut self, token: &[u8], line: u64) -> Result<(), RatiosError>
        requires { Filled self.old }
        ensures { MatchResult result (λ _. Passed (on_line line token.now ∷ []) self.old self.new) (Refused (on_line line token.now ∷ []) self.old) }
    {
        let count = self.count;
        if self.count == self.wanted {
            return Err(RatiosError::TooMany { line, count });
        }
        let Some(ratio) = read_ratio(token) else {
            return Err(RatiosError::NotARatio { line, count });
        };
        self.ratios[self.count] = ratio;
        self.count += 1;
        Ok(())
    }
}

// How many lines a text has: one for each line feed, and one that is ended by the text's end.
fn count_lines(text: &[u8]) -> u64
    ensures { result ≡ length (pieces ends_line text.now) }
{
    let feeds = text.iter().filter(|b| **b == b'\n').count() as u64;
    match text.last() {
        Some(last) => feeds + u64::from(*last != b'\n'),
        None => 0,
    }
}
