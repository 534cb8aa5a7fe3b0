// The side information of a frame as bits: the record of it, which bits it is, and what is asked of it before they are written. One function stands here: the
// indices of a slot.
#![tactic(auto)]

ghost use Rattle.std.specs.Prelude.{◌≡◌};
ghost use Rattle.audio_data.specs.Scfsi.{three_in};
ghost use Rattle.side_info.specs.SideInfo.{scalefactors_in};

use audio_data::Scfsi;

// What the side information of a frame says (ISO/IEC 11172-3 2.4.1.6). Slots that a header's layout does not carry say nothing of its frame.
// Kept: an array for each section, since C hands over and takes each by itself, and the sections travel one after the other.
#[derive(Clone, Copy)]
pub struct SideInfo {
    // By slot: the number of quantization steps; 0 where nothing is allocated.
    pub steps: [u32; 64],
    // By slot.
    pub scfsi: [Scfsi; 64],
    // At 3 * slot + granule: the index into Table 3-B.1.
    pub scalefactors: [u8; 192],
}

impl SideInfo {
    // The scalefactor indices of a slot, one for each granule; zeros where there is no such slot.
    pub fn granules(&self, slot: usize) -> [u8; 3]
        ensures { three_in result ≡ scalefactors_in self.now slot }
    {
        if slot < 64 {
            let at = 3 * slot;
            let indices = &self.scalefactors;
            [indices[at], indices[at + 1], indices[at + 2]]
        } else {
            [0; 3]
        }
    }
}
