// The layout of a frame's side information (ISO/IEC 11172-3 2.4.1.6): its allocation fields and its slots, in the order of the bitstream.
#![tactic(auto)]

ghost use Rattle.std.specs.Prelude.{◌≡◌};
ghost use Rattle.header.specs.Header.{bound_of};
ghost use Rattle.layout.specs.Layout.{own, shared_from, layout_of, ChannelCountIs, FieldsAre, FieldIs, ServingIs, SlotsAre, SlotIs};

use bitalloc::BitAllocTable;
use header::{FrameHeader, Mode};

pub mod slots;

// An allocation field: its subband, and the channel that it serves, or both, of which channel 0 is the first.
#[derive(Clone, Copy)]
pub struct AllocationField {
    pub subband: usize,
    pub channel: usize,
    pub both: bool,
}

// What says where a frame's fields are.
#[derive(Clone, Copy)]
pub struct Layout {
    pub table: BitAllocTable,
    // From this subband on one field serves both channels.
    pub bound: usize,
    // 1, or 2 by any other number.
    pub channels: usize,
}

impl Layout {
    // The layout of a header's frame under a table.
    pub fn of_header(header: FrameHeader, table: BitAllocTable) -> Layout
        ensures { result ≡ layout_of header table }
    {
        let bound = shared_from(header, table.sblimit());
        let channels = header.channels();
        Layout {
            table,
            bound,
            channels,
        }
    }

    // How many channels there are.
    pub fn channel_count(self) -> usize
        ensures { ChannelCountIs self result }
    {
        if self.channels == 1 { 1 } else { 2 }
    }

    // How many fields there are.
    pub fn fields(self) -> usize
        ensures { FieldsAre self result }
    {
        let table = self.table;
        let sblimit = table.sblimit();
        if self.channels == 1 {
            return sblimit;
        }
        if self.bound < sblimit {
            sblimit + self.bound
        } else {
            2 * sblimit
        }
    }

    // The field of a number, counted from 0 in the order of the bitstream.
    pub fn field(self, number: usize) -> AllocationField
        ensures { FieldIs self number result }
    {
        let fields = self.fields();
        if fields <= number {
            return own(0, 0);
        }
        if self.channels == 1 {
            return own(number, 0);
        }
        if number / 2 < self.bound {
            own(number / 2, number % 2)
        } else {
            AllocationField {
                subband: number - self.bound,
                channel: 0,
                both: true,
            }
        }
    }

    // The number of the field that serves a slot; none where the layout does not carry the slot.
    pub fn field_serving(self, channel: usize, subband: usize) -> Option<u32>
        ensures { ServingIs self channel subband result }
    {
        let table = self.table;
        let sblimit = table.sblimit();
        if sblimit <= subband {
            return None;
        }
        if self.channels == 1 {
            if channel == 0 {
                return Some(subband as u32);
            }
            return None;
        }
        if 2 <= channel {
            return None;
        }
        if subband < self.bound {
            Some((2 * subband + channel) as u32)
        } else {
            Some((subband + self.bound) as u32)
        }
    }

    // How many slots the layout carries.
    pub fn slots(self) -> usize
        ensures { SlotsAre self result }
    {
        let table = self.table;
        let sblimit = table.sblimit();
        if self.channels == 1 {
            sblimit
        } else {
            2 * sblimit
        }
    }

    // The slot of a number, counted from 0 in the order in which scfsi and scalefactors travel.
    pub fn slot(self, number: usize) -> usize
        ensures { SlotIs self number result }
    {
        let slots = self.slots();
        if slots <= number {
            return 0;
        }
        if self.channels == 1 {
            number
        } else {
            32 * (number % 2) + number / 2
        }
    }
}

fn own(subband: usize, channel: usize) -> AllocationField
    ensures { result ≡ own subband channel }
{
    AllocationField {
        subband,
        channel,
        both: false,
    }
}

// From which subband on the channels share a field: only in joint stereo, as the mode extension says.
fn shared_from(header: FrameHeader, sblimit: usize) -> usize
    ensures { result ≡ shared_from header.mode (bound_of header.mode_extension) sblimit }
{
    match header.mode {
        Mode::JointStereo => header.mode_extension.bound().min(sblimit),
        Mode::Stereo | Mode::DualChannel | Mode::SingleChannel => sblimit,
    }
}
