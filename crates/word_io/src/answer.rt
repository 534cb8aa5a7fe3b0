// What a program answers, and how it is written, line by line.
ghost use Rattle.std.specs.Prelude.{◌≡◌, ℕ, List, [], take, get_or, IsOk, OnOk};
ghost use Rattle.std.specs.Io.KnownBytes.{Appends};
ghost use Rattle.text_line.specs.Line.{text_of, fed};
ghost use Rattle.text_line.specs.Page.{LineAt};
ghost use Rattle.word_io.specs.Written.{lines_in, page_text, Written};

use std::env::Env;
use std::io;
use std::io::Write;
use text_line::Line;

// What a program answers to the words of its command line and its input: a page, whose lines can be asked for one by one.
pub trait Answer {
    ghost page: { List ℕ → List ℕ → List (List ℕ) };

    // The line of a number, counted from 0, where there is one.
    // Kept: words and input are read in `run_program`, after the program is made; a struct that lends both would need a lifetime in this trait.
    fn line(&self, words: &[u8], input: &[u8], n: usize) -> Option<Line>
        ensures { LineAt (page words.now input.now) n result };
}

// A program that writes what it answers by a function of its own, whose promise names its page.
pub trait Program: Answer {
    // Writes the answer line by line, and answers how many there were, as far as 64 bits count.
    // Where no write failed, what was written is the answer's text.
    // Kept: words, input, output and outcome are lent for this one call, as `write_answer` takes them.
    fn write<W: Write>(
        &self,
        words: &[u8],
        input: &[u8],
        out: &mut W,
        outcome: &mut io::Result<()>,
    ) -> usize
        ensures lines { result ≡ lines_in (Self.page words.now input.now) }
        ensures kept { OnOk outcome.new (IsOk outcome.old) }
        ensures text { OnOk outcome.new (Appends (W.contents out.old) (W.contents out.new)
            (page_text (take result (Self.page words.now input.now)))) };
}

// Reads, answers and writes by the program's own `write`, and answers how many lines the answer has. Where reading or writing fails it goes on, and `outcome`
// is the last error.
// Kept: `outcome` is lent and there is no `?`, since an error ends nothing here: reading and writing go on behind it.
pub fn run_program<A: Program, R: Env + Input + Print>(
    answer: &A,
    rt: &R,
    outcome: &mut io::Result<()>,
) -> usize
    ensures written { Written A.page result }
    ensures kept { OnOk outcome.new (IsOk outcome.old) }
{
    // Kept: no heap, so words and input stand at the front of fixed arrays, and the slices are what was read.
    let mut words = [0u8; word_notes::WORDS_ROOM];
    let size = crate::read_words(rt, crate::word_count(rt), &mut words);
    let mut input = [0u8; word_notes::INPUT_ROOM];
    let count = crate::read_input(rt, &words[..size], &mut input, outcome);
    answer.write(
        &words[..size],
        &input[..count],
        &mut io::writer(rt),
        outcome,
    )
}

// Reads, answers and writes line by line, and answers how many lines the answer has. Where reading or writing fails it goes on, and `outcome` is the last error.
// Kept: `outcome` is lent and there is no `?`, as in `run_program`.
pub fn run<A: Answer, R: Env + Input + Print>(
    answer: &A,
    rt: &R,
    outcome: &mut io::Result<()>,
) -> usize
    ensures written { Written A.page result }
    ensures kept { OnOk outcome.new (IsOk outcome.old) }
{
    run_program(&LineByLine(answer), rt, outcome)
}

// An answer as a program whose own writing is `write_answer`.
#[derive(Drop)]
struct LineByLine<'a, A: Answer>(&'a A);

impl<A: Answer> Answer for LineByLine<'_, A> {
    ghost page = { A.page };

    fn line(&self, words: &[u8], input: &[u8], n: usize) -> Option<Line> {
        self.0.line(words, input, n)
    }
}

impl<A: Answer> Program for LineByLine<'_, A> {
    fn write<W: Write>(
        &self,
        words: &[u8],
        input: &[u8],
        out: &mut W,
        outcome: &mut io::Result<()>,
    ) -> usize {
        write_answer(self, words, input, out, outcome)
    }
}

// Writes the answer line by line, and answers how many there were. A proved loop has to end: lines are counted as far as 64 bits count.
// Where no write failed, what was written is the answer's text.
// Kept: the number is a count of lines, and no refusal: what fails goes into `outcome`, since the lines behind it are still written.
// Kept: words, input, output and outcome are lent for this one call; a struct of them would be built by each of three callers to be taken apart here.
pub fn write_answer<A: Answer, W: Write>(
    answer: &A,
    words: &[u8],
    input: &[u8],
    out: &mut W,
    outcome: &mut io::Result<()>,
) -> usize
    ensures lines { result ≡ lines_in (A.page words.now input.now) }
    ensures kept { OnOk outcome.new (IsOk outcome.old) }
    ensures text { OnOk outcome.new (Appends (W.contents out.old) (W.contents out.new)
        (page_text (take result (A.page words.now input.now)))) }
{
    for n in 0..usize::MAX {
        match answer.line(words, input, n) {
            Some(line) => write_line::<A, W>(words, input, n, line, out, outcome),
            None => return n,
        }
    }
    usize::MAX
}

// Writes the line of a number of the answer to the words and the input, with its line feed. Where that fails, `outcome` is the error.
// Kept: words, input and number stand beside the line for the `requires` alone, as in `write_text`.
fn write_line<A: Answer, W: Write>(
    words: &[u8],
    input: &[u8],
    n: usize,
    line: Line,
    out: &mut W,
    outcome: &mut io::Result<()>,
)
    requires { LineAt (A.page words.now input.now) n (Some line) }
    ensures kept { OnOk outcome.new (IsOk outcome.old) }
    ensures text { OnOk outcome.new (Appends (W.contents out.old) (W.contents out.new) (fed (text_of line))) }
{
    let ended = line.ended();
    let text = ended.as_bytes();
    if let Err(e) = write_text::<A, W>(words, input, n, text, out) {
        *outcome = Err(e);
    }
}

// Hands a text to the writer: the line of a number of the answer to the words and the input, which are there for the `requires` alone.
// Fails where not all of it was taken.
fn write_text<A: Answer, W: Write>(
    words: &[u8],
    input: &[u8],
    n: usize,
    text: &[u8],
    out: &mut W,
) -> io::Result<()>
    requires { text.now ≡ fed (get_or (A.page words.now input.now) n []) }
    ensures { OnOk result (Appends (W.contents out.old) (W.contents out.new) text.now) }
{
    out.write_all(text)
}
