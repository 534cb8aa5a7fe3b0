// The lines that stand alone where the words of a command line cannot be read, or the words or the input are too long: for every program whose words
// give a frame header.
#![tactic(auto)]

ghost use Rattle.std.specs.Prelude.{◌≡◌, ◌++◌};
ghost use Rattle.text_line.specs.Line.{text_of, cut};
ghost use Rattle.word_notes.specs.Notes.{excerpt, unknown_text, twice_text, words_line, wants_input, on_line, long_words_line, long_input_line};

use plan_words::{WordPlace, Words, WordsError};
use text_line::Line;

// Words are shorter than this many bytes, with the byte 0 behind each, and an input than that many: buffers of these sizes tell which is too long.
pub const WORDS_ROOM: usize = 4096;

pub const INPUT_ROOM: usize = 65_536;

// Whether the words are accepted, so that the input is asked for.
#[tactic(auto, unfolding(crate::specs::Notes::wants_input))]
pub fn wants_input(words: &[u8]) -> bool
    ensures { result ≡ wants_input words.now }
{
    plan_words::read_words(words).is_ok()
}

// The line that says what is wrong with words, from what they were read as; empty where they are accepted.
pub fn words_line(words: &[u8], read: Result<Words, WordsError>) -> Line
    ensures { text_of result ≡ words_line words.now read }
{
    match read {
        Ok(_) => Line::new(),
        Err(WordsError::Unknown(place)) => unknown_word(words, place),
        Err(WordsError::Twice(place)) => twice_word(words, place),
        Err(WordsError::NoSampleRate) => {
            Line::new().text(b"fs is missing: say fs=48000 or another sample rate in Hz.")
        }
        Err(WordsError::NoBitRate) => {
            Line::new().text(b"rate is missing: say rate=192000 or another bit rate in bit/s.")
        }
    }
}

fn unknown_word(words: &[u8], place: WordPlace) -> Line
    ensures { text_of result ≡ unknown_text words.now place }
{
    let line = with_excerpt(Line::new().text(b"cannot read '"), words, place);
    line.text(
        b"': say fs=, rate= or ancillary= with a whole number; mode=stereo, joint, dual or single; bound=4, 8, 12 or 16; lsf=, padding= or crc= with 0 or 1.",
    )
}

fn twice_word(words: &[u8], place: WordPlace) -> Line
    ensures { text_of result ≡ twice_text words.now place }
{
    let line = with_excerpt(
        Line::new().text(b"set twice, the second time by '"),
        words,
        place,
    );
    line.text(b"'.")
}

// A word behind a line; of a long one the first 80 bytes.
fn with_excerpt(line: Line, words: &[u8], place: WordPlace) -> Line
    ensures { text_of result ≡ cut (text_of line ++ excerpt words.now place) }
{
    let last = place.end.min(words.len());
    let start = place.at.min(last);
    let stop = start + (last - start).min(80);
    line.text(&words[start..stop])
}

// The line of the input that a note is about.
pub fn on_line(line: u64) -> Line
    ensures { text_of result ≡ on_line line }
{
    Line::new().text(b"line ").number(line)
}

pub fn long_words() -> Line
    ensures { text_of result ≡ long_words_line }
{
    Line::new().text(b"the words are longer than 4095 bytes.")
}

pub fn long_input() -> Line
    ensures { text_of result ≡ long_input_line }
{
    Line::new().text(b"the input is longer than 65535 bytes.")
}
