// The function of the C library that reads side information: a header, as seven numbers, and bytes; into the three slices of a record, and a count. The
// function of the same name in `folgrist_mp2` hands over the numbers and the slices under the same contract; here the slices' lengths are asked about first (98),
// then what the numbers mean (14), then what the function itself asks.
#![tactic(auto)]

ghost use Rattle.std.specs.Prelude.{◌≡◌, length, ◌≤◌, [], ◌∷◌};
ghost use Rattle.c_answers.specs.Answers.{answered, written, Answers};
ghost use Rattle.c_answers.specs.Refusals.{number_in};
ghost use Rattle.c_side_info_read.specs.Replies.{header_asked, codes_of, steps_read, scfsi_read, indices_read, bits_read};
ghost use Rattle.side_info_reading.specs.Reading.{nothing};

use audio_data::Scfsi;
use c_answers::arguments::HeaderNumbers;
use c_answers::refusal::Refusal;
use c_answers::writing;
use side_info::SideInfo;
use side_info_reader::ReadSideInfo;

// The record that stands at the front of the bytes, and how many of their bits are used.
// Kept: C hands over each slice of the record by itself, and each has its own clause.
pub fn read_side_info(
    given: HeaderNumbers,
    bytes: &[u8],
    steps: &mut [u32],
    scfsi: &mut [u8],
    index: &mut [u8],
    out: &mut [u32],
) -> Result<u32, Refusal>
    ensures steps_written { Answers
        (answered
        (header_asked given steps.old scfsi.old index.old out.old)
        (steps_read bytes.now))
        steps.old (number_in result) steps.new }
    ensures scfsi_written { Answers
        (answered
        (header_asked given steps.old scfsi.old index.old out.old)
        (scfsi_read bytes.now))
        scfsi.old (number_in result) scfsi.new }
    ensures index_written { Answers
        (answered
        (header_asked given steps.old scfsi.old index.old out.old)
        (indices_read bytes.now))
        index.old (number_in result) index.new }
    ensures out_written { Answers
        (answered
        (header_asked given steps.old scfsi.old index.old out.old)
        (bits_read bytes.now))
        out.old (number_in result) out.new }
{
    // Kept: one test, as in the clauses; `first_chunk_mut` of each slice would lend all four before the header is read, and add four returns to each of four clauses.
    let short = (steps.len() < 64) | ((scfsi.len() < 64) | ((index.len() < 192) | (out.len() < 1)));
    let header = given.header(short)?;
    Ok(match &side_info_reader::read_side_info(header, bytes) {
        Ok(read) => put_read(0, read, steps, scfsi, index, out),
        Err(error) => put_read(error.number(), &nothing(), steps, scfsi, index, out),
    })
}

// What is read, into the slices, beside the number. It is lent: each copy of a record is seen in the time of a small frame.
fn put_read(
    number: u32,
    read: &ReadSideInfo,
    steps: &mut [u32],
    scfsi: &mut [u8],
    index: &mut [u8],
    out: &mut [u32],
) -> u32
    requires { (64 ≤ length steps.old) × (64 ≤ length scfsi.old) × (192 ≤ length index.old) × (1 ≤ length out.old) }
    ensures number { result ≡ number }
    ensures steps { steps.new ≡ written read.now.info.steps steps.old }
    ensures scfsi { scfsi.new ≡ written (codes_of read.now.info.scfsi) scfsi.old }
    ensures index { index.new ≡ written read.now.info.scalefactors index.old }
    ensures out { out.new ≡ written (read.now.bits_used ∷ []) out.old }
{
    writing::put(&read.info.steps, steps);
    writing::put(&codes_of(&read.info.scfsi), scfsi);
    writing::put(&read.info.scalefactors, index);
    out[0] = read.bits_used;
    number
}

// The codes of scfsi.
// Kept: one by one; with `map` of the array the compiler took each of 64 apart, which was a seventh of a call's instructions.
fn codes_of(slots: &[Scfsi; 64]) -> [u8; 64]
    ensures { result ≡ codes_of slots.now }
{
    let mut codes = [0; 64];
    for (slot, scfsi) in slots.iter().enumerate() {
        codes[slot] = scfsi.code();
    }
    codes
}

// What stands beside a refusal: every slot idle, and no bit used.
#[tactic(auto, unfolding(side_info_reading::specs::Reading::nothing))]
fn nothing() -> ReadSideInfo
    ensures { result.info ≡ nothing × result.bits_used ≡ 0 }
{
    ReadSideInfo {
        info: SideInfo {
            steps: [0; 64],
            scfsi: [Scfsi::ThreePerGranule; 64],
            scalefactors: [0; 192],
        },
        bits_used: 0,
    }
}
