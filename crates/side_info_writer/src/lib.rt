// The writer of a frame's side information (ISO/IEC 11172-3 2.4.1.6): its allocation fields, scfsi and scalefactors as bits.
#![tactic(auto)]

ghost use Rattle.std.specs.Prelude.{◌≡◌, true, ◌+◌, ◌≤◌, ◌<◌, ◌++◌, length, MatchResult, OnOk};
ghost use mathlib.Core.List.{[], flat_map};
ghost use Rattle.active_slots.specs.Active.{listed};
ghost use Rattle.audio_data.specs.Scfsi.{sent, three_in};
ghost use Rattle.bit_string.specs.Bits.{bits_of};
ghost use Rattle.layout.specs.Layout.{fields_of};
ghost use Rattle.side_info.specs.SideInfo.{tabled, allocation_field_bits, scfsi_bits, scalefactor_bits, side_info_bits, field_asked, record_asked};
ghost use Rattle.header.specs.Questions.{number};
ghost use Rattle.side_info_writer.specs.declared.WriteError.TheVariants.{Header};
ghost use Rattle.side_info_writer.specs.Written.{error_number, written_in, WrittenIs};
ghost use Rattle.side_info_writer.specs.OnTheWay.{found, Passed, Stopped, TabledAre, EachTabled, written_under};

use active_slots::ActiveSlots;
use audio_data::Scfsi;
use bitalloc::BitAllocTable;
use encoder_bit_budget::BitAllocError;
use header::FrameHeader;
use layout::{AllocationField, Layout};
use side_info::SideInfo;

mod bit_writer;

use bit_writer::BitWriter;

// The bytes that hold the longest side information, 1388 bits.
pub const SIDE_INFO_BYTES: usize = 174;

// The side information of a frame as bytes, most significant bit first, with zeros behind the last bit that is used; and how many bits are used.
// Kept: nothing is allocated, so that the bytes have room for the longest; and their number does not say how many bits of the last one are used.
#[derive(Clone, Copy)]
pub struct WrittenSideInfo {
    pub bytes: [u8; SIDE_INFO_BYTES],
    pub bits_used: u32,
}

// Why a record is not written.
#[derive(Clone, Copy, Debug, PartialEq, Eq)]
pub enum WriteError {
    // The header has no budget.
    Header(BitAllocError),
    // The channels that a field serves have different steps.
    StepsDiffer,
    // The row of a field's subband does not have its steps.
    StepsNotInRow,
    // Table 3-B.1 does not have an index of an active slot.
    IndexNotInTable,
}

impl WriteError {
    // The answer's number.
    // Kept: C is answered by these numbers; the case of a header takes its number from what it holds, so that the cases have no discriminants.
    pub fn number(self) -> u32
        ensures { result ≡ error_number self }
    {
        match self {
            WriteError::Header(error) => error.number(),
            WriteError::StepsDiffer => 6,
            WriteError::StepsNotInRow => 7,
            WriteError::IndexNotInTable => 8,
        }
    }
}

impl From<BitAllocError> for WriteError {
    ghost from_gives = { λ error refusal. refusal ≡ Header error };

    fn from(refusal: BitAllocError) -> WriteError {
        WriteError::Header(refusal)
    }
}

// A record as the bits of a header's frame. Slots that the header's layout does not carry are not read.
pub fn write_side_info(header: FrameHeader, info: &SideInfo) -> Result<WrittenSideInfo, WriteError>
    ensures { WrittenIs header info.now (written_in result) }
{
    let budget = encoder_bit_budget::fixed_bit_budget(header)?;
    write_under(budget.layout(), info)
}

// The same in the layout of an accepted header.
fn write_under(layout: Layout, info: &SideInfo) -> Result<WrittenSideInfo, WriteError>
    ensures { written_in result ≡ written_under layout info.now }
{
    let mut writer = BitWriter::new();
    write_sections(layout, info, &mut writer)?;
    Ok(WrittenSideInfo {
        bytes: writer.bytes(),
        bits_used: writer.bits_used(),
    })
}

// The allocation fields, scfsi and scalefactors: the fields are asked as they are written, then the indices.
fn write_sections(layout: Layout, info: &SideInfo, writer: &mut BitWriter) -> Result<(), WriteError>
    requires { writer.old ≡ [] }
    ensures asked { MatchResult result (λ _. number (record_asked layout info.now) ≡ 0) (λ e. number (record_asked layout info.now) ≡ error_number e) }
    ensures written { OnOk result (writer.new ≡ side_info_bits layout info.now) }
{
    write_allocation(layout, info, writer)?;
    let active = active_slots::active_slots(layout, info.steps);
    if !indices_tabled(active, info) {
        return Err(WriteError::IndexNotInTable);
    }
    write_scfsi(active, info, writer);
    write_scalefactors(active, info, writer);
    Ok(())
}

// The place of a field's steps in its row, where the channels that it serves have the same.
fn field_place(
    table: BitAllocTable,
    field: AllocationField,
    info: &SideInfo,
) -> Result<u32, WriteError>
    requires { (field.channel < 2) × (field.subband < 32) }
    ensures { result ≡ found table field info.now }
{
    let sb = field.subband;
    let steps_differ = field.both & (info.steps[32 + sb] != info.steps[sb]);
    if steps_differ {
        return Err(WriteError::StepsDiffer);
    }
    table
        .allocation_index(sb, info.steps[32 * field.channel + sb])
        .ok_or(WriteError::StepsNotInRow)
}

// The allocation fields, field by field.
fn write_allocation(
    layout: Layout,
    info: &SideInfo,
    writer: &mut BitWriter,
) -> Result<(), WriteError>
    requires { writer.old ≡ [] }
    ensures asked { MatchResult result (λ _. Passed (flat_map (field_asked layout info.now) (fields_of layout))) (λ e. Stopped (flat_map (field_asked layout info.now) (fields_of layout)) (error_number e)) }
    ensures written { OnOk result (writer.new ≡ flat_map (allocation_field_bits layout info.now) (fields_of layout)) }
{
    let table = layout.table;
    for f in 0..layout.fields() {
        let field = layout.field(f);
        let place = field_place(table, field, info)?;
        writer.put(place, table.nbal(field.subband));
    }
    Ok(())
}

// Whether Table 3-B.1 has the three indices of a slot.
fn slot_tabled(indices: [u8; 3]) -> bool
    ensures { result ≡ tabled (three_in indices) }
{
    (indices[0] <= 62) & (indices[1] <= 62) & (indices[2] <= 62)
}

// Whether it has those of every active slot.
fn indices_tabled(active: ActiveSlots, info: &SideInfo) -> bool
    ensures { TabledAre (listed active) info.now result }
{
    for slot in active.as_slice() {
        if !slot_tabled(info.granules(usize::from(*slot))) {
            return false;
        }
    }
    true
}

// The scfsi of the active slots, two bits each.
fn write_scfsi(active: ActiveSlots, info: &SideInfo, writer: &mut BitWriter)
    requires { length writer.old + length (flat_map (scfsi_bits info.now) (listed active)) ≤ 1392 }
    ensures { writer.new ≡ writer.old ++ flat_map (scfsi_bits info.now) (listed active) }
{
    for slot in active.as_slice() {
        let scfsi = info.scfsi[usize::from(*slot)];
        writer.put(u32::from(scfsi.code()), 2);
    }
}

// The indices that a scfsi sends, six bits each.
fn put_sent(writer: &mut BitWriter, scfsi: Scfsi, indices: [u8; 3])
    requires { (tabled (three_in indices) ≡ true) × (length writer.old + length (flat_map (bits_of 6) (sent scfsi (three_in indices))) ≤ 1392) }
    ensures { writer.new ≡ writer.old ++ flat_map (bits_of 6) (sent scfsi (three_in indices)) }
{
    let [first, second, third] = indices;
    writer.put(u32::from(first), 6);
    match scfsi {
        Scfsi::ThreePerGranule => {
            writer.put(u32::from(second), 6);
            writer.put(u32::from(third), 6);
        }
        Scfsi::Share01Then2 | Scfsi::Share0Then12 => writer.put(u32::from(third), 6),
        Scfsi::ShareAll => {}
    }
}

// The scalefactors of the active slots.
fn write_scalefactors(active: ActiveSlots, info: &SideInfo, writer: &mut BitWriter)
    requires { EachTabled (listed active) info.now × (length writer.old + length (flat_map (scalefactor_bits info.now) (listed active)) ≤ 1392) }
    ensures { writer.new ≡ writer.old ++ flat_map (scalefactor_bits info.now) (listed active) }
{
    for slot in active.as_slice() {
        let slot = usize::from(*slot);
        put_sent(writer, info.scfsi[slot], info.granules(slot));
    }
}
