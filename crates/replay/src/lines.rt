// A reader of lines of numbers: it is fed a line's bytes one after the other, and keeps the line's numbers.
ghost use Rattle.std.specs.Prelude.{◌≤◌};

// No line has more numbers.
const MOST: usize = 256;

// What was read of a line last.
#[derive(Clone, Copy)]
enum Part {
    // Nothing yet.
    Start,
    Comment,
    // The number that the digits so far are.
    Digits(u64),
    // The space behind a number.
    Space,
    // Something that no line of numbers has.
    Malformed,
}

// A line of which the end has not been read.
// Kept: the numbers are an array with their count, since nothing here is allocated; no line has more than 256.
#[derive(Clone, Copy)]
pub struct Line {
    // Counted from 1.
    pub number: u64,
    numbers: [u64; MOST],
    // How many numbers are in the array.
    count: usize,
    part: Part,
    ghost inside: { count ≤ 256 },
}

// What a line turned out to be at its end.
#[derive(Clone, Copy)]
pub enum Ended<'a> {
    // An empty line or a comment.
    Skipped,
    Numbers(&'a [u64]),
    Malformed,
}

impl Line {
    pub fn first() -> Line {
        Line {
            number: 1,
            numbers: [0; MOST],
            count: 0,
            part: Part::Start,
        }
    }

    // Begins the line after this one.
    pub fn begin_next(&mut self) {
        self.number = self.number.saturating_add(1);
        self.count = 0;
        self.part = Part::Start;
    }

    // What comes behind is no line of numbers.
    pub fn spoil(&mut self) {
        self.part = Part::Malformed;
    }

    // Takes one byte more, which is no line end.
    pub fn feed(&mut self, byte: u8) {
        self.part = match (self.part, byte) {
            (Part::Comment, _) => Part::Comment,
            (Part::Start, b'#') => Part::Comment,
            (Part::Start | Part::Space, b'0'..=b'9') => Part::Digits(u64::from(byte - b'0')),
            (Part::Digits(value), b'0'..=b'9') => with_digit(value, byte - b'0').map_or(
                Part::Malformed,
                Part::Digits,
            ),
            (Part::Digits(value), b' ') => self
                .keep(value)
                .map_or(Part::Malformed, |()| Part::Space),
            _ => Part::Malformed,
        };
    }

    // Keeps a number that is whole; none where a line has no room for it.
    fn keep(&mut self, value: u64) -> Option<()> {
        *self.numbers.get_mut(self.count)? = value;
        self.count += 1;
        Some(())
    }

    // What the line is, now that its end was read.
    pub fn end(&mut self) -> Ended<'_> {
        match self.part {
            Part::Start | Part::Comment => Ended::Skipped,
            Part::Digits(value) => match self.keep(value) {
                Some(()) => Ended::Numbers(&self.numbers[..self.count]),
                None => Ended::Malformed,
            },
            Part::Space | Part::Malformed => Ended::Malformed,
        }
    }
}

// A number with one digit more; none above `u64::MAX`.
fn with_digit(value: u64, digit: u8) -> Option<u64> {
    value.checked_mul(10)?.checked_add(u64::from(digit))
}
