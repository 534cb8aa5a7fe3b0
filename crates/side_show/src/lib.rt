// The program that shows side information: what it prints for the words of its command line and its input, line by line.
#![tactic(auto)]

mod notes;

ghost use Rattle.text_line.specs.Page.{LineAt};
ghost use Rattle.side_show.specs.Side.{with_bytes, with_input, side_of};

use header::FrameHeader;
use hex_text::HexError;
use text_line::{Line, only};

// The line of a number, counted from 0. The words are each ended by a byte 0.
// Kept: words and input by themselves, as `Answer::line` of word_io takes them.
pub fn side_line(words: &[u8], input: &[u8], n: usize) -> Option<Line>
    ensures { LineAt (side_of words.now input.now) n result }
{
    if word_notes::WORDS_ROOM <= words.len() {
        return only(word_notes::long_words(), n);
    }
    match plan_words::read_words(words) {
        Ok(read) => with_input(read.header, input, n),
        Err(error) => only(word_notes::words_line(words, Err(error)), n),
    }
}

// With an input: what its bytes give, or the line that says what is wrong with its digits.
fn with_input(header: FrameHeader, input: &[u8], n: usize) -> Option<Line>
    ensures { LineAt (with_input header input.now) n result }
{
    if word_notes::INPUT_ROOM <= input.len() {
        return only(word_notes::long_input(), n);
    }
    // Kept: nothing here is allocated, so `read_hex` fills the front of an array and says how far.
    let mut bytes = [0u8; word_notes::INPUT_ROOM];
    match hex_text::read_hex(input, &mut bytes) {
        Ok(count) => with_bytes(header, &bytes[..count], n),
        Err(HexError::WrongCharacter { line, column }) => {
            only(notes::wrong_character(line, column), n)
        }
        Err(HexError::OddDigits { line }) => only(notes::odd_digits(line), n),
    }
}

// With bytes: the page of the side information that they begin with.
fn with_bytes(header: FrameHeader, bytes: &[u8], n: usize) -> Option<Line>
    ensures { LineAt (with_bytes header bytes.now) n result }
{
    let read = side_info_reader::read_side_info(header, bytes);
    side_page::page_line(header, bytes.len() as u64, read, n)
}
