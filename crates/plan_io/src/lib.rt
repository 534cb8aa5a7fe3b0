// The planner's reading and writing: the words of the command line, the ratios from standard input, the answer to standard output.
#![tactic(auto)]

ghost use Rattle.std.specs.Prelude.{◌≡◌, take, IsOk, OnOk};
ghost use Rattle.std.specs.Io.KnownBytes.{Appends};
ghost use Rattle.text_line.specs.Page.{LineAt};
ghost use Rattle.planner.specs.Planner.{plan_of};
ghost use Rattle.word_io.specs.Written.{lines_in, page_text, Written};

use std::env::Env;
use std::io;
use std::io::Write;
use text_line::Line;
use word_io::{Answer, Program};

struct Planner;

impl Answer for Planner {
    ghost page = { plan_of };

    fn line(&self, words: &[u8], input: &[u8], n: usize) -> Option<Line> {
        planner::plan_line(words, input, n)
    }
}

impl Program for Planner {
    fn write<W: Write>(
        &self,
        words: &[u8],
        input: &[u8],
        out: &mut W,
        outcome: &mut io::Result<()>,
    ) -> usize {
        write_plan(words, input, out, outcome)
    }
}

// Reads, plans and writes, and answers how many lines the answer has. Where reading or writing fails it goes on, and `outcome` is
// the last error.
// Kept: one function for each program, since its promise names its page, `plan_of`; what the two programs share stands in word_io.
pub fn run<R: Env + Input + Print>(rt: &R, outcome: &mut io::Result<()>) -> usize
    ensures written { Written plan_of result }
    ensures kept { OnOk outcome.new (IsOk outcome.old) }
{
    word_io::run_program(&Planner, rt, outcome)
}

// Writes the answer line by line, and answers how many there were, as far as 64 bits count.
// Where no write failed, what was written is the answer's text.
// Kept: one function for each program, as above.
pub fn write_plan<W: Write>(
    words: &[u8],
    input: &[u8],
    out: &mut W,
    outcome: &mut io::Result<()>,
) -> usize
    ensures lines { result ≡ lines_in (plan_of words.now input.now) }
    ensures kept { OnOk outcome.new (IsOk outcome.old) }
    ensures text { OnOk outcome.new (Appends (W.contents out.old) (W.contents out.new)
        (page_text (take result (plan_of words.now input.now)))) }
{
    word_io::write_answer(&Planner, words, input, out, outcome)
}
