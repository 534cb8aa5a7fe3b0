// A text in fixed memory, and a line.
ghost use Rattle.std.specs.Prelude.{◌≤◌};

// A text of at most N bytes: the first `length` of them.
// Kept: no heap, so the bytes are a fixed array with their length beside them; `within` ties the two, and none but these methods sees them.
#[derive(Clone, Copy)]
pub struct Text<const N: usize> {
    bytes: [u8; N],
    length: usize,
    pub ghost within: { length ≤ N },
}

pub type Line = Text<256>;

// A line as it is written, with its line feed.
pub type EndedLine = Text<257>;

impl<const N: usize> Text<N> {
    ghost use Rattle.std.specs.Prelude.{◌≡◌, [], ◌++◌, take};
    ghost use Rattle.text_line.specs.Line.{text_of};

    // No text yet.
    pub fn new() -> Text<N>
        ensures { text_of result ≡ [] }
    {
        Text {
            bytes: [0; N],
            length: 0,
        }
    }

    pub fn as_bytes(&self) -> &[u8]
        ensures { result.now ≡ text_of self.now }
    {
        &self.bytes[..self.length]
    }

    // With as much of a text behind as there is room for.
    fn with(self, added: &[u8]) -> Text<N>
        ensures { text_of result ≡ take N (text_of self.entry ++ added.now) }
    {
        let at = self.length;
        let n = added.len().min(N - at);
        let mut bytes = self.bytes;
        let buffer = &mut bytes[..];
        // Kept: what does not fit is cut off, so of the text added only a part goes into a part of the array.
        buffer[at..at + n].copy_from_slice(&added[..n]);
        Text {
            bytes,
            length: at + n,
        }
    }
}

// No `write!`: it promises its text only where it answers `Ok`, and that it does no clause says, while a line always takes what it is given.
impl Line {
    ghost use Rattle.std.specs.Prelude.{◌≡◌, ◌++◌};
    ghost use Rattle.text_line.specs.Line.{text_of, cut, spaces, aligned, fed};
    ghost use Rattle.text_line.specs.Number.{number_text};

    // The text with a line feed behind it.
    pub fn ended(self) -> EndedLine
        ensures { text_of result ≡ fed (text_of self) }
    {
        EndedLine::new().with(self.as_bytes()).with(b"\n")
    }

    // With a text behind.
    #[tactic(auto, unfolding(crate::specs::Line::cut))]
    pub fn text(self, added: &[u8]) -> Line
        ensures { text_of result ≡ cut (text_of self ++ added.now) }
    {
        self.with(added)
    }

    // With spaces behind.
    fn spaces(self, n: usize) -> Line
        ensures { text_of result ≡ cut (text_of self ++ spaces n) }
    {
        let blanks = [b' '; 256];
        self.text(&blanks[..n.min(256)])
    }

    // With another line's text behind, at the right of a column.
    pub fn aligned(self, width: usize, column: Line) -> Line
        ensures { text_of result ≡ cut (text_of self ++ aligned width (text_of column)) }
    {
        let line = self.spaces(width.saturating_sub(column.length));
        line.text(column.as_bytes())
    }

    // With a number behind.
    // Kept: the digits are already those that itoa prints; `write!` would promise them only where it answers `Ok`, as said above.
    pub fn number(self, n: u64) -> Line
        ensures { text_of result ≡ cut (text_of self ++ number_text n) }
    {
        let mut digits = itoa::Buffer::new();
        self.text(digits.format(n).as_bytes())
    }

    // With a number behind, at the right of a column.
    pub fn number_in(self, width: usize, n: u64) -> Line
        ensures { text_of result ≡ cut (text_of self ++ aligned width (number_text n)) }
    {
        self.aligned(width, Line::new().number(n))
    }
}
