// The reader of a frame's side information (ISO/IEC 11172-3 2.4.1.6): its allocation fields, scfsi and scalefactors from bits.
#![tactic(auto)]

ghost use Rattle.std.specs.Prelude.{◌≡◌, ◌≤◌, ◌<◌, length};
ghost use Rattle.active_slots.specs.Active.{listed};
ghost use Rattle.audio_data.specs.Scfsi.{three_in};
ghost use Rattle.side_info_reading.specs.Taken.{laid};
ghost use Rattle.side_info_reading.specs.Reading.{in_slots, in_granules, allocation_taken, scfsis_taken, scalefactors_taken, index_taken, three_taken};
ghost use Rattle.side_info_reading.specs.Read.{ReadIs};
ghost use Rattle.side_info_reader.specs.declared.ReadError.TheVariants.{Header};
ghost use Rattle.side_info_reader.specs.Errors.{error_number, taken_by, with_written, read_in};
ghost use Rattle.side_info_reader.specs.OnTheWay.{StepsAt, three_by, read_under};

use active_slots::ActiveSlots;
use audio_data::Scfsi;
use bitalloc::BitAllocTable;
use encoder_bit_budget::BitAllocError;
use header::FrameHeader;
use layout::{AllocationField, Layout};
use side_info::SideInfo;

mod bit_reader;

use bit_reader::BitReader;

// What is read of a frame's bytes: the record, and how many bits were used. Idle slots have no steps, `ThreePerGranule` and indices 0.
#[derive(Clone, Copy)]
pub struct ReadSideInfo {
    pub info: SideInfo,
    pub bits_used: u32,
}

// Why bytes are not read.
#[derive(Clone, Copy, Debug, PartialEq, Eq)]
pub enum ReadError {
    // The header has no budget.
    Header(BitAllocError),
    // The bytes end before the side information does.
    EndOfBytes,
    // A scalefactor index is 63, which Table 3-B.1 does not have.
    ReservedIndex,
}

impl ReadError {
    // The answer's number.
    // Kept: C is answered by these numbers; the case of a header takes its number from what it holds, so that the cases have no discriminants.
    pub fn number(self) -> u32
        ensures { result ≡ error_number self }
    {
        match self {
            ReadError::Header(error) => error.number(),
            ReadError::EndOfBytes => 9,
            ReadError::ReservedIndex => 10,
        }
    }
}

impl From<BitAllocError> for ReadError {
    ghost from_gives = { λ refusal error. error ≡ Header refusal };

    fn from(refusal: BitAllocError) -> ReadError {
        ReadError::Header(refusal)
    }
}

// The steps at a place of a subband's row.
fn steps_at(table: BitAllocTable, sb: usize, place: u32) -> u32
    requires { place < 16 }
    ensures { StepsAt table sb place result }
{
    let row = table.row(sb);
    row[place as usize]
}

// The steps of a field, in the slots that it serves.
fn put_steps(field: AllocationField, steps: u32, nb_steps: &mut [u32; 64])
    requires { (field.subband < 32) × (field.channel < 2) × (length nb_steps.old ≡ 64) }
    ensures { nb_steps.new ≡ laid (in_slots field steps) nb_steps.old }
{
    let sb = field.subband;
    if field.both {
        nb_steps[sb] = steps;
        nb_steps[32 + sb] = steps;
    } else {
        nb_steps[32 * field.channel + sb] = steps;
    }
}

// The allocation fields, field by field: the steps by slot.
// Kept: here and below the array is lent; one that a `Result` hands back is copied, which was seen in the time of a frame.
fn read_allocation(
    layout: Layout,
    reader: &mut BitReader,
    nb_steps: &mut [u32; 64],
) -> Result<(), ReadError>
    ensures taken { taken_by (with_written result nb_steps.new) reader.new.ahead ≡ allocation_taken layout reader.old.ahead }
    ensures all { reader.new.all ≡ reader.old.all }
{
    let table = layout.table;
    *nb_steps = [0; 64];
    for f in 0..layout.fields() {
        let field = layout.field(f);
        let sb = field.subband;
        let place = reader.take(table.nbal(sb))?;
        put_steps(field, steps_at(table, sb, place), nb_steps);
    }
    Ok(())
}

// The scfsi of the active slots, two bits each; that of slots that send none is `ThreePerGranule`.
fn read_scfsi(
    active: ActiveSlots,
    reader: &mut BitReader,
    scfsi: &mut [Scfsi; 64],
) -> Result<(), ReadError>
    ensures taken { taken_by (with_written result scfsi.new) reader.new.ahead ≡ scfsis_taken (listed active) reader.old.ahead }
    ensures all { reader.new.all ≡ reader.old.all }
{
    *scfsi = [Scfsi::ThreePerGranule; 64];
    for slot in active.as_slice() {
        let code = reader.take(2)?;
        scfsi[usize::from(*slot)] = Scfsi::of_code(code as u8);
    }
    Ok(())
}

// A scalefactor index: six bits, of which 63 is refused.
fn read_index(reader: &mut BitReader) -> Result<u8, ReadError>
    ensures taken { taken_by result reader.new.ahead ≡ index_taken reader.old.ahead }
    ensures all { reader.new.all ≡ reader.old.all }
{
    let index = reader.take(6)?;
    if index == 63 {
        return Err(ReadError::ReservedIndex);
    }
    Ok(index as u8)
}

// The scalefactor indices of a slot, one for each granule: as many as its scfsi sends.
fn read_three(scfsi: Scfsi, reader: &mut BitReader) -> Result<[u8; 3], ReadError>
    ensures taken { three_by result reader.new.ahead ≡ three_taken scfsi reader.old.ahead }
    ensures all { reader.new.all ≡ reader.old.all }
{
    let first = read_index(reader)?;
    match scfsi {
        Scfsi::ThreePerGranule => {
            let second = read_index(reader)?;
            let third = read_index(reader)?;
            Ok([first, second, third])
        }
        Scfsi::Share01Then2 => {
            let second = read_index(reader)?;
            Ok([first, first, second])
        }
        Scfsi::ShareAll => Ok([first, first, first]),
        Scfsi::Share0Then12 => {
            let second = read_index(reader)?;
            Ok([first, second, second])
        }
    }
}

// The indices of a slot, one for each granule.
fn put_three(slot: usize, indices: [u8; 3], scalefactor: &mut [u8; 192])
    requires { (slot < 64) × (length scalefactor.old ≡ 192) }
    ensures { scalefactor.new ≡ laid (in_granules slot (three_in indices)) scalefactor.old }
{
    let at = 3 * slot;
    scalefactor[at] = indices[0];
    scalefactor[at + 1] = indices[1];
    scalefactor[at + 2] = indices[2];
}

// The scalefactors of the active slots.
fn read_scalefactors(
    active: ActiveSlots,
    scfsi: &[Scfsi; 64],
    reader: &mut BitReader,
    scalefactor: &mut [u8; 192],
) -> Result<(), ReadError>
    ensures taken { taken_by (with_written result scalefactor.new) reader.new.ahead ≡ scalefactors_taken scfsi.now (listed active) reader.old.ahead }
    ensures all { reader.new.all ≡ reader.old.all }
{
    *scalefactor = [0; 192];
    for slot in active.as_slice() {
        let slot = usize::from(*slot);
        let indices = read_three(scfsi[slot], reader)?;
        put_three(slot, indices, scalefactor);
    }
    Ok(())
}

// The three sections in the layout of an accepted header.
fn read_under(layout: Layout, bytes: &[u8]) -> Result<ReadSideInfo, ReadError>
    ensures { read_in result ≡ read_under layout bytes.now }
{
    let mut reader = BitReader::new(bytes);
    let mut info = SideInfo {
        steps: [0; 64],
        scfsi: [Scfsi::ThreePerGranule; 64],
        scalefactors: [0; 192],
    };
    read_allocation(layout, &mut reader, &mut info.steps)?;
    let active = active_slots::active_slots(layout, info.steps);
    read_scfsi(active, &mut reader, &mut info.scfsi)?;
    read_scalefactors(active, &info.scfsi, &mut reader, &mut info.scalefactors)?;
    Ok(ReadSideInfo {
        info,
        bits_used: reader.bits_used(),
    })
}

// The side information at the front of bytes that start at the first allocation bit, most significant bit first. What stands behind the bits used is not
// looked at.
pub fn read_side_info(header: FrameHeader, bytes: &[u8]) -> Result<ReadSideInfo, ReadError>
    ensures { ReadIs header bytes.now (read_in result) }
{
    let budget = encoder_bit_budget::fixed_bit_budget(header)?;
    read_under(budget.layout(), bytes)
}
