// What the programs whose words give a frame header read, the words of the command line and standard input, and how they write what they answer.
#![tactic(auto)]

mod answer;
#[cfg(test)]
mod tests;

ghost use Rattle.std.specs.Prelude.{◌<◌, ◌≤◌, length, take, IsOk, OnOk};
ghost use Rattle.std.specs.Io.KnownBytes.{Consumes, IsAtEnd};
ghost use Rattle.word_io.specs.Words.{WordEnded, WordRead, WordsRead, InputRead};

pub use answer::{Answer, Program, run, run_program, write_answer};
use std::env::{Env, FillError};
use std::io;
use std::io::Read;

// How many words the command line has, the program's name among them.
pub fn word_count(rt: &impl Env) -> usize {
    let is_behind = |i: &usize| matches!(rt.arg(*i, &mut []), Err(FillError::NotPresent));
    (0..usize::MAX).find(is_behind).unwrap_or(usize::MAX)
}

// Puts the words of the command line, `count` with the program's name, one behind the other, each ended by a byte 0, and answers how many
// bytes they take; the whole buffer, which the programs refuse, where they do not fit.
pub fn read_words(rt: &impl Env, count: usize, words: &mut [u8]) -> usize
    ensures { WordsRead count words.old words.new result }
{
    let mut at = 0;
    for i in 1..count {
        at = read_word(rt, i, words, at);
    }
    at
}

// Puts a word at a place, and answers the place behind its byte 0; the buffer's end where it does not fit.
// Kept: a full buffer is what the programs refuse as too long; `read_words`, the only caller, would turn a `None` back into the buffer's length.
fn read_word(rt: &impl Env, i: usize, words: &mut [u8], at: usize) -> usize
    requires { at ≤ length words.old }
    ensures { WordRead words.old words.new at result }
{
    match rt.arg(i, &mut words[at..]) {
        Ok(size) => end_word(words, at + size),
        Err(_) => words.len(),
    }
}

// Puts the byte 0 behind a word, and answers the place behind it; the buffer's end where there is no room.
fn end_word(words: &mut [u8], end: usize) -> usize
    ensures { WordEnded words.old words.new end result }
{
    if end < words.len() {
        words[end] = 0;
        end + 1
    } else {
        words.len()
    }
}

// Reads the input, where the words are such that it is asked for, and answers how many bytes it takes. A read that fails ends the input, and its error is
// the new `outcome`.
// Kept: `outcome` is lent and no `Result` comes back, since an error ends nothing: what was read before it is used, and the answer is still written.
pub fn read_input(
    rt: &impl Input,
    words: &[u8],
    input: &mut [u8],
    outcome: &mut io::Result<()>,
) -> usize
    ensures read { InputRead words.now input.old input.new result }
    ensures kept { OnOk outcome.new (IsOk outcome.old) }
{
    if word_notes::wants_input(words) {
        read_full(&mut rt.reader(), input, outcome)
    } else {
        0
    }
}

// Reads until the buffer is full, the input ends or a read fails, and answers how many bytes it takes.
// Where no read failed, the reader is at its end or the buffer is full.
fn read_full<R: Read>(from: &mut R, input: &mut [u8], outcome: &mut io::Result<()>) -> usize
    ensures within { result ≤ length input.new }
    ensures kept { OnOk outcome.new (IsOk outcome.old) }
    ensures bytes { Consumes (R.remaining from.old) (R.remaining from.new) (take result input.new) }
    ensures end { OnOk outcome.new (result < length input.new → IsAtEnd (R.remaining from.new)) }
{
    let mut at = 0;
    // A `while`: each turn goes on by as many bytes as were read, and std's `read_exact` and `read_to_end` do not say what they read before they failed.
    while at < input.len() {
        match from.read(&mut input[at..]) {
            Ok(0) => break,
            Ok(n) => at += n,
            Err(e) => {
                *outcome = Err(e);
                break;
            }
        }
    }
    at
}
