// The line of a request that is refused.
ghost use Rattle.std.specs.Prelude.{◌≡◌, ◌++◌};
ghost use Rattle.text_line.specs.Line.{text_of, cut};
ghost use Rattle.plan_lines.specs.Held.{told};
ghost use Rattle.plan_lines.specs.Refusal.{off_ladder_text, no_table_text, no_sample_rate_text, too_large_text, too_small_text, advice_text, other_text, reason_text, refusal_line};

use encoder_bit_budget::BitAllocError;
use header::FrameHeader;
use text_line::Line;

pub fn refusal_line(header: FrameHeader, error: BitAllocError) -> Line
    ensures { text_of result ≡ told (refusal_line header) error }
{
    match error {
        BitAllocError::InsufficientFrameSize { cb, fixed, banc } => {
            numbered_line(header, error.number(), cb, fixed, banc)
        }
        _ => numbered_line(header, error.number(), 0, 0, 0),
    }
}

// The line of an answer's number; the bits are said beside 4 alone.
pub fn numbered_line(header: FrameHeader, number: u32, cb: u32, fixed: u32, banc: u32) -> Line
    ensures { text_of result ≡ refusal_line header number cb fixed banc }
{
    let line = Line::new()
        .text(b"refused ")
        .number(number as u64)
        .text(b": ");
    reason(line, header, number, cb, fixed, banc)
}

fn reason(line: Line, header: FrameHeader, number: u32, cb: u32, fixed: u32, banc: u32) -> Line
    ensures { text_of result ≡ cut (text_of line ++ reason_text header number cb fixed banc) }
{
    match number {
        16 => off_ladder(line, header.lsf),
        1 => no_table(line),
        2 => no_sample_rate(line),
        3 => too_large(line),
        4 => advice(too_small(line, cb, fixed, banc), header.is_free_format()),
        _ => other(line),
    }
}

fn off_ladder(line: Line, lsf: bool) -> Line
    ensures { text_of result ≡ cut (text_of line ++ off_ladder_text lsf) }
{
    line.text(if lsf {
        b"no such rate with lsf=1: give 8000, 16000, 24000, 32000, 40000, 48000, 56000, 64000, 80000, 96000, 112000, 128000, 144000 or 160000 bit/s; at 32000, 44100 and 48000 Hz say lsf=0."
    } else {
        b"no such rate with lsf=0: give 32000, 48000, 56000, 64000, 80000, 96000, 112000, 128000, 160000, 192000, 224000, 256000, 320000 or 384000 bit/s; at 16000, 22050 and 24000 Hz say lsf=1."
    })
}

fn no_table(line: Line) -> Line
    ensures { text_of result ≡ cut (text_of line ++ no_table_text) }
{
    line.text(b"no allocation table for this rate, mode and fs: at 32000, 44100 and 48000 Hz ")
        .text(
            b"give 32000, 48000, 56000, 64000, 80000, 96000, 112000, 128000, 160000 or 192000 bit/s for each channel; at 16000, 22050 and 24000 Hz say lsf=1.",
        )
}

fn no_sample_rate(line: Line) -> Line
    ensures { text_of result ≡ cut (text_of line ++ no_sample_rate_text) }
{
    line.text(b"the sample rate is 0: say fs=24000 or another in Hz.")
}

// No allocation is refused by 3.
fn too_large(line: Line) -> Line
    ensures { text_of result ≡ cut (text_of line ++ too_large_text) }
{
    line.text(b"the frame is over 536870911 bytes: lower rate or raise fs.")
}

fn too_small(line: Line, cb: u32, fixed: u32, banc: u32) -> Line
    ensures { text_of result ≡ cut (text_of line ++ too_small_text cb fixed banc) }
{
    line.text(b"the frame has ")
        .number(cb as u64)
        .text(b" bits, but ")
        .number(fixed as u64)
        .text(b" are fixed and ")
        .number(banc as u64)
        .text(b" ancillary: ")
}

// Kept: as `off_ladder` it says one text or the other, by a flag of the header; what they share is the `if`.
fn advice(line: Line, free: bool) -> Line
    ensures { text_of result ≡ cut (text_of line ++ advice_text free) }
{
    line.text(if free {
        b"rate=0 is free format, whose frame size is not known here: give a rate."
    } else {
        b"raise rate or lower ancillary."
    })
}

// A number that has no sentence.
fn other(line: Line) -> Line
    ensures { text_of result ≡ cut (text_of line ++ other_text) }
{
    line.text(b"what this number says stands in docs/ANSWERS.md.")
}
