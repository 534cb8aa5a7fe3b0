// The lines that stand alone where the ratios cannot be read.
ghost use Rattle.std.specs.Prelude.{◌≡◌};
ghost use Rattle.text_line.specs.Line.{text_of};
ghost use Rattle.planner.specs.Notes.{ratios_line, cannot_read_text, too_many_text, too_few_text};

use plan_ratios::RatiosError;
use text_line::Line;
use word_notes::on_line;

// The line that says what is wrong with the ratios, of which the mode has `slots`.
pub fn ratios_line(error: RatiosError, slots: u64) -> Line
    ensures { text_of result ≡ ratios_line error slots }
{
    match error {
        RatiosError::NotARatio { line, .. } => cannot_read(line),
        RatiosError::TooMany { line, .. } => too_many(line, slots),
        RatiosError::TooFew { line, count } => too_few(line, count as u64, slots),
    }
}

fn cannot_read(line: u64) -> Line
    ensures { text_of result ≡ cannot_read_text line }
{
    on_line(line).text(
        b": not a ratio: say decibels with at most 15 digits and no exponent, such as 12.5 or -3, or inf, -inf or nan.",
    )
}

fn too_many(line: u64, slots: u64) -> Line
    ensures { text_of result ≡ too_many_text line slots }
{
    on_line(line)
        .text(b": more ratios than the ")
        .number(slots)
        .text(b" of this mode.")
}

fn too_few(line: u64, count: u64, slots: u64) -> Line
    ensures { text_of result ≡ too_few_text line count slots }
{
    let ends = on_line(line).text(b": the input ends with ").number(count);
    ends.text(b" of ").number(slots).text(b" ratios.")
}
