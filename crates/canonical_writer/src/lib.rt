// The writer that gives a frame's side information one form: each active slot is sent with the scfsi that needs the fewest scalefactor indices.
#![tactic(auto)]

ghost use Rattle.std.specs.Prelude.{◌≡◌};
ghost use Rattle.audio_data.specs.Scfsi.{three_in};
ghost use Rattle.canonical_form.specs.Fewest.{FewestIs, chosen};
ghost use Rattle.canonical_form.specs.Canonical.{CanonicalIs};
ghost use Rattle.canonical_writer.specs.declared.CanonicalError.TheVariants.{Check, Write};
ghost use Rattle.canonical_writer.specs.Errors.{error_number, canonical_in};

use audio_data::Scfsi;
use header::FrameHeader;
use record_checker::RecordError;
use side_info::SideInfo;
use side_info_writer::{WriteError, WrittenSideInfo};

// Why a record has no canonical form.
// Kept: both cases are causes, and neither is a missing value: what is answered is std's `Result`, with this as its error.
#[derive(Clone, Copy, Debug, PartialEq, Eq)]
pub enum CanonicalError {
    // It does not pass `check_record`.
    Check(RecordError),
    // `write_side_info` refuses it.
    Write(WriteError),
}

impl CanonicalError {
    // The answer's number.
    // Kept: C is answered by numbers, and each case takes its number from what it holds.
    pub fn number(self) -> u32
        ensures { result ≡ error_number self }
    {
        match self {
            CanonicalError::Check(error) => error.number(),
            CanonicalError::Write(error) => error.number(),
        }
    }
}

impl From<RecordError> for CanonicalError {
    ghost from_gives = { λ error refusal. refusal ≡ Check error };

    fn from(refusal: RecordError) -> CanonicalError {
        CanonicalError::Check(refusal)
    }
}

impl From<WriteError> for CanonicalError {
    ghost from_gives = { λ error refusal. refusal ≡ Write error };

    fn from(refusal: WriteError) -> CanonicalError {
        CanonicalError::Write(refusal)
    }
}

// A record as the bits of a header's frame, each active slot with the scfsi that sends the fewest indices. The scfsi given is read by `check_record` alone,
// which refuses a record that does not hang together.
pub fn write_side_info_canonical(
    header: FrameHeader,
    info: &SideInfo,
) -> Result<WrittenSideInfo, CanonicalError>
    ensures { CanonicalIs header info.now (canonical_in result) }
{
    record_checker::check_record(header, info)?;
    let fewest = SideInfo {
        scfsi: chosen(info),
        ..*info
    };
    Ok(side_info_writer::write_side_info(header, &fewest)?)
}

// The scfsi of every slot, from its three indices.
fn chosen(info: &SideInfo) -> [Scfsi; 64]
    ensures { result ≡ chosen info.now }
{
    let mut slots = [Scfsi::ThreePerGranule; 64];
    for slot in 0..64 {
        slots[slot] = fewest_scfsi(info.granules(slot));
    }
    slots
}

// The scfsi that carries three indices with the fewest sent: one where all agree, two where only two neighbours do, else three. The indices stay as they
// are: `select_scfsi` of encoder_scfsi, which may change them, is another choice.
pub fn fewest_scfsi(indices: [u8; 3]) -> Scfsi
    ensures { FewestIs (three_in indices) result }
{
    let [first, second, third] = indices;
    match (first == second, second == third) {
        (true, true) => Scfsi::ShareAll,
        (true, false) => Scfsi::Share01Then2,
        (false, true) => Scfsi::Share0Then12,
        (false, false) => Scfsi::ThreePerGranule,
    }
}
