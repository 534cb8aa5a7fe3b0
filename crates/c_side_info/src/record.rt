// The record of a frame's side information, read from its three slices.
ghost use Rattle.std.specs.Prelude.{◌≡◌, map};
ghost use Rattle.c_answers.specs.Refusals.{meaning_in};
ghost use Rattle.c_side_info.specs.Arguments.{are_codes, coded, frame_asked};

use audio_data::Scfsi;
use c_answers::arguments::HeaderNumbers;
use c_answers::refusal::Refusal;
use header::FrameHeader;
use side_info::SideInfo;

// The three slices of a record: steps and scfsi codes by slot, scalefactor indices at 3 * slot + granule.
#[derive(Clone, Copy)]
pub struct RecordSlices<'a> {
    pub steps: &'a [u32],
    pub scfsi: &'a [u8],
    pub index: &'a [u8],
}

// A header with the record of its frame.
#[derive(Clone, Copy)]
pub struct Frame {
    pub header: FrameHeader,
    pub side: SideInfo,
}

impl RecordSlices<'_> {
    // The record of the first elements, with its header; refused where one of the slices is short, or another slice of the call is, and where a number of the
    // header or a scfsi means nothing.
    pub(crate) fn frame(self, given: HeaderNumbers, short: bool) -> Result<Frame, Refusal>
        ensures { meaning_in result ≡ frame_asked short given self.entry }
    {
        let steps = self.steps.first_chunk().ok_or(Refusal::Short)?;
        let codes = self.scfsi.first_chunk().ok_or(Refusal::Short)?;
        let index = self.index.first_chunk().ok_or(Refusal::Short)?;
        let header = given.header(short)?;
        if !are_codes(codes) {
            return Err(Refusal::NoMeaning);
        }
        let side = SideInfo {
            steps: *steps,
            scfsi: slots(codes),
            scalefactors: *index,
        };
        Ok(Frame { header, side })
    }
}

// Whether each is the code of a scfsi.
fn are_codes(codes: &[u8; 64]) -> bool
    ensures { result ≡ are_codes codes.now }
{
    codes.iter().all(|code| *code <= 3)
}

// The scfsi of each code.
// Kept: one by one; with `map` of the array the compiler took each of 64 apart.
fn slots(codes: &[u8; 64]) -> [Scfsi; 64]
    ensures { result ≡ map coded codes.now }
{
    let mut slots = [Scfsi::ThreePerGranule; 64];
    for (slot, code) in codes.iter().enumerate() {
        slots[slot] = Scfsi::of_code(*code);
    }
    slots
}
