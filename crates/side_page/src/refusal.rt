// The line of side information that is refused.
ghost use Rattle.std.specs.Prelude.{◌≡◌};
ghost use Rattle.text_line.specs.Line.{text_of};
ghost use Rattle.side_info_reader.specs.Errors as reader;
ghost use Rattle.side_page.specs.Page.{cut_short_text, reserved_text, refused_line};

use header::FrameHeader;
use side_info_reader::ReadError;
use text_line::Line;

pub fn refused_line(header: FrameHeader, error: ReadError, given: u64) -> Line
    ensures { text_of result ≡ refused_line header (reader.error_number error) given }
{
    numbered_line(header, error.number(), given)
}

// The line of an answer's number. The page names no bits beside a number: 4 alone has any, and no reader gives it.
pub fn numbered_line(header: FrameHeader, number: u32, given: u64) -> Line
    ensures { text_of result ≡ refused_line header number given }
{
    match number {
        9 => cut_short(given),
        10 => reserved(),
        _ => plan_lines::numbered_line(header, number, 0, 0, 0),
    }
}

fn cut_short(given: u64) -> Line
    ensures { text_of result ≡ cut_short_text given }
{
    Line::new()
        .text(b"refused 9: the side information goes on behind the ")
        .number(given)
        .text(
            b" bytes given: paste the frame's bytes in hexadecimal from its first allocation bit on, to its end, and check the header's words.",
        )
}

fn reserved() -> Line
    ensures { text_of result ≡ reserved_text }
{
    Line::new().text(
        b"refused 10: a scalefactor index is 63, which Table 3-B.1 does not have: check the header's words, and that the bytes begin at the first allocation bit, behind header and CRC.",
    )
}
