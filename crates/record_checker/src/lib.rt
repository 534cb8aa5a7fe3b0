// The check of a record of side information: whether its steps, scfsi and scalefactor indices hang together in a header's layout.
#![tactic(auto)]

ghost use Rattle.std.specs.Prelude.{◌≡◌, ◌<◌};
ghost use Rattle.header.specs.Questions.{number};
ghost use Rattle.layout.specs.Slots.{slot_of};
ghost use Rattle.audio_data.specs.Scfsi.{agreeing};
ghost use Rattle.side_info.specs.SideInfo.{scfsi_in, scalefactors_in};
ghost use Rattle.record_check.specs.Check.{slot_asked, CheckIs};
ghost use Rattle.record_checker.specs.declared.RecordError.TheVariants.{Header};
ghost use Rattle.record_checker.specs.Errors.{slot_number, error_in, place_in, check_in};
ghost use Rattle.record_checker.specs.OnTheWay.{refusal_number, check_under};

use audio_data::Scfsi;
use encoder_bit_budget::BitAllocError;
use header::FrameHeader;
use layout::Layout;
use side_info::SideInfo;

// Why a slot is refused, each reason with its number.
#[derive(Clone, Copy, Debug, PartialEq, Eq)]
pub enum SlotError {
    // It has steps, and the layout does not carry it.
    NotCarried = 17,
    // The channels that its field serves have different steps.
    StepsDiffer = 6,
    // Its scfsi says that granules share an index, and they have different ones.
    IndicesDiffer = 18,
}

impl SlotError {
    // The number of the question that says no.
    // Kept: C is answered by these numbers; they are the discriminants.
    pub fn number(self) -> u32
        ensures { result ≡ slot_number self }
    {
        self as u32
    }
}

// Why a record does not pass.
// Kept: both cases are causes, and neither is a missing value: what is answered is std's `Result`, with this as its error.
#[derive(Clone, Copy, Debug, PartialEq, Eq)]
pub enum RecordError {
    // The header has no budget.
    Header(BitAllocError),
    // The first slot in turn that is refused.
    Slot {
        error: SlotError,
        subband: u32,
        channel: u32,
    },
}

impl RecordError {
    // The answer's number.
    // Kept: C is answered by numbers, and each case of this enum takes its number from what it holds.
    pub fn number(self) -> u32
        ensures { result ≡ (error_in self).number }
    {
        match self {
            RecordError::Header(error) => error.number(),
            RecordError::Slot { error, .. } => error.number(),
        }
    }

    // The subband and the channel that it is about; a header's refusal is about none, and has zeros.
    pub fn place(self) -> [u32; 2]
        ensures { result ≡ place_in (error_in self) }
    {
        match self {
            RecordError::Header(_) => [0, 0],
            RecordError::Slot {
                subband,
                channel,
                ..
            } => [subband, channel],
        }
    }
}

impl From<BitAllocError> for RecordError {
    ghost from_gives = { λ refusal error. error ≡ Header refusal };

    fn from(refusal: BitAllocError) -> RecordError {
        RecordError::Header(refusal)
    }
}

// A record checked in the layout of a header: steps only where it carries a slot (17), one step count in a shared field (6), and indices equal wherever the
// scfsi of an active slot says that they are shared (18).
pub fn check_record(header: FrameHeader, info: &SideInfo) -> Result<(), RecordError>
    ensures { CheckIs header info.now (check_in result) }
{
    let budget = encoder_bit_budget::fixed_bit_budget(header)?;
    check_under(budget.layout(), info)
}

// The same in the layout of an accepted header: slot by slot, by rising subband, channel 0 first.
fn check_under(layout: Layout, info: &SideInfo) -> Result<(), RecordError>
    ensures { check_in result ≡ check_under layout info.now }
{
    for k in 0..64 {
        let sb = k / 2;
        let ch = k % 2;
        if let Err(error) = check_slot(layout, ch, sb, info) {
            return Err(RecordError::Slot {
                error,
                subband: sb as u32,
                channel: ch as u32,
            });
        }
    }
    Ok(())
}

// Whether a slot's granules that share an index have the same.
fn agreeing(info: &SideInfo, slot: usize) -> bool
    requires { slot < 64 }
    ensures { result ≡ agreeing (scfsi_in info.now slot) (scalefactors_in info.now slot) }
{
    let [first, second, third] = info.granules(slot);
    match info.scfsi[slot] {
        Scfsi::ThreePerGranule => true,
        Scfsi::Share01Then2 => first == second,
        Scfsi::ShareAll => (first == second) & (second == third),
        Scfsi::Share0Then12 => second == third,
    }
}

// Whether a slot passes: one that no field serves is empty; where a field serves both channels, they have the same steps; and a slot with steps has indices
// that agree with its scfsi.
fn check_slot(layout: Layout, ch: usize, sb: usize, info: &SideInfo) -> Result<(), SlotError>
    requires channel { ch < 2 }
    requires subband { sb < 32 }
    ensures { refusal_number result ≡ number (slot_asked layout info.now (slot_of ch sb)) }
{
    let slot = 32 * ch + sb;
    let empty = info.steps[slot] == 0;
    let Some(number) = layout.field_serving(ch, sb) else {
        return if empty {
            Ok(())
        } else {
            Err(SlotError::NotCarried)
        };
    };
    let field = layout.field(number as usize);
    let steps_differ = field.both & (info.steps[32 + sb] != info.steps[sb]);
    if steps_differ {
        return Err(SlotError::StepsDiffer);
    }
    let indices_agree = empty | agreeing(info, slot);
    if !indices_agree {
        return Err(SlotError::IndicesDiffer);
    }
    Ok(())
}
