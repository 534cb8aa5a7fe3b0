// The lines that stand alone where the digits cannot be read.
ghost use Rattle.std.specs.Prelude.{◌≡◌};
ghost use Rattle.text_line.specs.Line.{text_of};
ghost use Rattle.side_show.specs.Notes.{wrong_character_text, odd_digits_text};

use text_line::Line;
use word_notes::on_line;

pub fn wrong_character(line: u64, column: u64) -> Line
    ensures { text_of result ≡ wrong_character_text line column }
{
    let place = on_line(line).text(b", column ").number(column);
    place.text(
        b": not a hexadecimal digit: say 0 to 9, a to f or A to F, spaces, tabs and line ends as you like, and # before a comment.",
    )
}

pub fn odd_digits(line: u64) -> Line
    ensures { text_of result ≡ odd_digits_text line }
{
    on_line(line).text(b": the last digit has no other beside it: say two for each byte.")
}
