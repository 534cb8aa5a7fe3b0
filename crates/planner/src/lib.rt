// The planner: what it prints for the words of its command line and its input, line by line.
#![tactic(auto)]

mod notes;

ghost use Rattle.std.specs.Prelude.{◌≡◌};
ghost use Rattle.text_line.specs.Page.{LineAt};
ghost use Rattle.planner.specs.Planner.{slots_for, with_words, plan_of};

use header::FrameHeader;
use layout::slots;
use plan_words::Words;
use text_line::{Line, only};

// The line of a number, counted from 0. The words are each ended by a byte 0.
// Kept: words and input by themselves, as `Answer::line` of word_io takes them.
pub fn plan_line(words: &[u8], input: &[u8], n: usize) -> Option<Line>
    ensures { LineAt (plan_of words.now input.now) n result }
{
    if word_notes::WORDS_ROOM <= words.len() {
        return only(word_notes::long_words(), n);
    }
    if word_notes::INPUT_ROOM <= input.len() {
        return only(word_notes::long_input(), n);
    }
    match plan_words::read_words(words) {
        Ok(read) => with_words(read, input, n),
        Err(error) => only(word_notes::words_line(words, Err(error)), n),
    }
}

// With words: the page of the ratios, or the line that says what is wrong with them.
fn with_words(words: Words, input: &[u8], n: usize) -> Option<Line>
    ensures { LineAt (with_words words input.now) n result }
{
    let header = words.header;
    let wanted = slots_for(header);
    match plan_ratios::read_ratios(input, wanted) {
        Ok(read) => plan_page::page_line(header, words.banc, slots::rows(&read.ratios), n),
        Err(error) => only(notes::ratios_line(error, wanted as u64), n),
    }
}

// How many ratios a header asks for.
fn slots_for(header: FrameHeader) -> usize
    ensures { result ≡ slots_for header }
{
    32 * header.channels()
}
