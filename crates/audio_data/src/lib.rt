// The side information of a Layer II frame (ISO/IEC 11172-3 2.4.1.6): bit allocation, scalefactor selection information
// and scalefactor indices, as one record.
#![tactic(auto)]

ghost use Rattle.std.specs.Prelude.{◌≡◌};
ghost use Rattle.audio_data.specs.Scfsi.{of_code, CodeIs, PartsAre};
ghost use Rattle.audio_data.specs.Record.{fresh, filler};

use bitalloc::{BitAllocTable, NUM_SUBBANDS};
use layout::Layout;

// Scalefactor selection information (2.4.2.6): which of the three granules, of 12 samples each, share a scalefactor.
#[derive(Clone, Copy)]
pub enum Scfsi {
    // Three scalefactors, one for each granule.
    ThreePerGranule = 0,
    // Two: the first for granules 0 and 1, the second for granule 2.
    Share01Then2 = 1,
    // One for all three granules.
    ShareAll = 2,
    // Two: the first for granule 0, the second for granules 1 and 2.
    Share0Then12 = 3,
}

impl Scfsi {
    // The scfsi of a two-bit code (2.4.3.3.2); a number above 3 is taken as 3.
    // Kept: a code has two bits, each of the four names a case and nothing is refused, where `TryFrom` has an error; C's bytes are asked for `<= 3` where they come in.
    pub fn of_code(code: u8) -> Scfsi
        ensures { result ≡ of_code code }
    {
        match code {
            0 => Scfsi::ThreePerGranule,
            1 => Scfsi::Share01Then2,
            2 => Scfsi::ShareAll,
            _ => Scfsi::Share0Then12,
        }
    }

    // The two-bit code (2.4.2.6).
    // Kept: a cast of the discriminant under the standard's word; `u8::from(scfsi)` would not say which number it gives.
    pub fn code(self) -> u8
        ensures { CodeIs self result }
    {
        self as u8
    }

    // How many scalefactor indices are transmitted.
    // Kept: one figure for each case, as in the figures of modes and tables; these are the figures themselves, and no form holds them in fewer lines.
    pub fn parts_on_wire(self) -> usize
        ensures { PartsAre self result }
    {
        match self {
            Scfsi::ThreePerGranule => 3,
            Scfsi::Share01Then2 => 2,
            Scfsi::ShareAll => 1,
            Scfsi::Share0Then12 => 2,
        }
    }
}

// The side information of one frame.
// Kept: the fields are those of the Rust's record of this name; a layout and a `SideInfo` within the record would give each figure two names.
#[derive(Clone, Copy)]
pub struct AudioData {
    pub table: BitAllocTable,
    // How many subbands the table carries.
    pub sblimit: usize,
    // From this subband on both channels have one allocation.
    pub bound: usize,
    pub channels: usize,
    // By slot: the number of quantization steps; 0 where nothing is allocated.
    pub nb_steps: [u32; 2 * NUM_SUBBANDS],
    // By slot.
    pub scfsi: [Scfsi; 2 * NUM_SUBBANDS],
    // At 3 * slot + granule: the index into Table 3-B.1.
    pub scalefactor: [u8; 6 * NUM_SUBBANDS],
}

impl AudioData {
    // Nothing allocated yet in a layout.
    pub fn new(layout: Layout) -> AudioData
        ensures { result ≡ fresh layout }
    {
        let table = layout.table;
        AudioData {
            table,
            sblimit: table.sblimit(),
            bound: layout.bound,
            channels: layout.channels,
            ..AudioData::filler()
        }
    }

    // Nothing allocated, in no layout: each slot is idle, with three scalefactors of index 0.
    pub fn filler() -> AudioData
        ensures { result ≡ filler }
    {
        AudioData {
            table: BitAllocTable::B2a,
            sblimit: 0,
            bound: 0,
            channels: 0,
            nb_steps: [0; 2 * NUM_SUBBANDS],
            scfsi: [Scfsi::ThreePerGranule; 2 * NUM_SUBBANDS],
            scalefactor: [0; 6 * NUM_SUBBANDS],
        }
    }
}
