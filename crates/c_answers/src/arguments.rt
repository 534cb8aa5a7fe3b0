// From the numbers by which C hands over a header or a table to what they mean.
ghost use Rattle.std.specs.Prelude.{◌≡◌, false, cond, leb, eqb};
ghost use Rattle.c_answers.specs.Answers.{meant, refused, asked};
ghost use Rattle.c_answers.specs.Arguments.{header_numbered, table_meant};
ghost use Rattle.c_answers.specs.Refusals.{meaning_in};

use crate::refusal::Refusal;
use bitalloc::BitAllocTable;
use header::{FrameHeader, Mode, ModeExtension};

// The seven numbers of a call, in the order of the C header.
// Kept: `Head` of `c_calls` has the same fields: that program stands on `folgrist_mp2` alone and calls it by numbers, as C does.
#[derive(Clone, Copy)]
pub struct HeaderNumbers {
    pub lsf: u8,
    pub bit_rate: u32,
    pub sample_rate: u32,
    pub padding: u8,
    pub protection_bit: u8,
    pub mode: u8,
    pub mode_extension: u8,
}

impl HeaderNumbers {
    // The header that they mean; refused where a slice of the call is short, or where one of them means nothing.
    // Kept: the clauses of the calls with a record speak of all their slices in one Bool; it is asked about here, before the numbers.
    pub fn header(self, short: bool) -> Result<FrameHeader, Refusal>
        ensures { meaning_in result ≡ asked short (header_numbered self) }
    {
        if short {
            return Err(Refusal::Short);
        }
        FrameHeader::try_from(self)
    }
}

impl TryFrom<HeaderNumbers> for FrameHeader {
    type Error = Refusal;

    ghost try_from_gives = { λ given result. meaning_in result ≡ asked false (header_numbered given) };

    #[tactic(auto, unfolding(crate::specs::Arguments::header_in))]
    fn try_from(given: HeaderNumbers) -> Result<FrameHeader, Refusal> {
        let mode = Mode::try_from(u64::from(given.mode))?;
        let mode_extension = ModeExtension::try_from(u64::from(given.mode_extension))?;
        Ok(FrameHeader {
            lsf: flag(given.lsf)?,
            bit_rate: given.bit_rate,
            sample_rate: given.sample_rate,
            padding: flag(given.padding)?,
            mode,
            mode_extension,
            protection_bit: flag(given.protection_bit)?,
        })
    }
}

// A flag is 0 or 1.
// Kept: std makes no bool of a number.
fn flag(number: u8) -> Result<bool, Refusal>
    ensures { meaning_in result ≡ cond (leb number 1) (meant (eqb number 1)) (refused 14) }
{
    match number {
        0 => Ok(false),
        1 => Ok(true),
        _ => Err(Refusal::NoMeaning),
    }
}

// The table of a number; refused where the number means nothing.
pub fn table(number: u8) -> Result<BitAllocTable, Refusal>
    ensures { meaning_in result ≡ table_meant false number }
{
    let table = BitAllocTable::try_from(u64::from(number))?;
    Ok(table)
}
