// The page that shows the side information read from a frame, as lines of text.
#![tactic(auto)]

mod refusal;

ghost use Rattle.std.specs.Prelude.{◌≡◌, ◌<◌};
ghost use Rattle.header.specs.Header.{free_format};
ghost use Rattle.active_slots.specs.Active.{listed};
ghost use Rattle.side_info_reader.specs.Errors.{read_in};
ghost use Rattle.text_line.specs.Line.{text_of};
ghost use Rattle.text_line.specs.Page.{LineAt};
ghost use Rattle.side_page.specs.Page.{first_line, head_of, row_of, foot_of, accepted_page, side_page};

use active_slots::ActiveSlots;
use encoder_bit_budget::{FixedBitBudget, Request};
use header::FrameHeader;
use plan_lines::Label;
use side_info::SideInfo;
use side_info_reader::{ReadError, ReadSideInfo};
use text_line::Line;

// The line of a number, counted from 0, of the page for a header, the number of bytes given and what was read from them.
pub fn page_line(
    header: FrameHeader,
    given: u64,
    read: Result<ReadSideInfo, ReadError>,
    n: usize,
) -> Option<Line>
    ensures { LineAt (side_page header given (read_in read)) n result }
{
    match read {
        Ok(read) => {
            let b = plan_lines::budget_held(Request { header, banc: 0 });
            let active = active_slots::active_slots(b.layout(), read.info.steps);
            accepted_line(header, b, active, &read, n)
        }
        Err(error) => text_line::only(refusal::refused_line(header, error, given), n),
    }
}

// A line of the page of side information that was read.
fn accepted_line(
    header: FrameHeader,
    b: FixedBitBudget,
    active: ActiveSlots,
    read: &ReadSideInfo,
    n: usize,
) -> Option<Line>
    ensures { LineAt (accepted_page (free_format header) b (listed active) read.now.info read.now.bits_used) n result }
{
    if n < 3 {
        return head_line(header, b, n);
    }
    let slots = active.as_slice();
    match slots.get(n - 3) {
        Some(slot) => Some(row_line(usize::from(*slot), &read.info)),
        None => foot_line(u64::from(read.bits_used), n - 3 - slots.len()),
    }
}

// A line above the rows.
// Kept: each place's line is made where it is asked for; an array of the three would make all of them for each line of the page.
fn head_line(header: FrameHeader, b: FixedBitBudget, n: usize) -> Option<Line>
    ensures { LineAt (head_of (free_format header) b) n result }
{
    match n {
        0 => Some(first_line(header, b)),
        1 => Some(Line::new()),
        2 => Some(side_rows::heading()),
        _ => None,
    }
}

fn first_line(header: FrameHeader, b: FixedBitBudget) -> Line
    ensures { text_of result ≡ first_line (free_format header) b }
{
    if header.is_free_format() {
        plan_lines::free_line(b)
    } else {
        plan_lines::frame_line(b)
    }
}

// The row of a slot.
fn row_line(slot: usize, info: &SideInfo) -> Line
    requires { slot < 64 }
    ensures { text_of result ≡ row_of info.now slot }
{
    side_rows::row_line(
        slot,
        info.steps[slot],
        info.scfsi[slot].code(),
        info.granules(slot),
    )
}

// A line below the rows.
// Kept: as above, of two lines.
fn foot_line(bits: u64, n: usize) -> Option<Line>
    ensures { LineAt (foot_of bits) n result }
{
    match n {
        0 => Some(Line::new()),
        1 => Some(plan_lines::bits_line(Label::Used, bits)),
        _ => None,
    }
}
