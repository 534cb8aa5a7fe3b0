// The bits of a frame: what is fixed, and what is offered to samples and scalefactors. The constant terms of the bit allocation of
// ISO/IEC 11172-3 C.1.5.2.7.
#![tactic(auto)]

ghost use Rattle.std.specs.Prelude.{◌≡◌, true};
ghost use Rattle.std.specs.Prelude.{Some};
ghost use Rattle.ladder.specs.Ladder.{on_ladder};
ghost use Rattle.table_selection.specs.Select.{table_of};
ghost use Rattle.encoder_bit_budget.specs.Budget.{error_number, plain, crc_bits, allocation_bits, fixed_in, layout_in, budget_with, available_in, available_of, offered_in, BudgetIs};

use bitalloc::BitAllocTable;
use header::FrameHeader;
use layout::Layout;

// What is asked of a frame's bits.
// Kept: `Words` of `plan_words` has the same fields, and neither crate stands on the other: that is what a line says, this is what a frame is asked.
#[derive(Clone, Copy)]
pub struct Request {
    pub header: FrameHeader,
    // The caller's ancillary bits, which are set aside.
    pub banc: u32,
}

// Why a header has no budget, or a budget no allocation.
#[derive(Clone, Copy, Debug, PartialEq, Eq)]
pub enum BitAllocError {
    RateOffLadder,
    NoBitallocTable,
    ZeroSampleRate,
    // The frame's `cb` bits do not hold the `fixed` ones and the caller's `banc`: an allocation's refusal, and no budget's.
    InsufficientFrameSize { cb: u32, fixed: u32, banc: u32 },
}

impl BitAllocError {
    // The answer's number.
    // Kept: C and the pages answer by these numbers, which follow no order of the variants; one variant has fields, so there is no cast.
    pub fn number(self) -> u32
        ensures { result ≡ error_number self }
    {
        match self {
            BitAllocError::RateOffLadder => 16,
            BitAllocError::NoBitallocTable => 1,
            BitAllocError::ZeroSampleRate => 2,
            BitAllocError::InsufficientFrameSize { .. } => 4,
        }
    }
}

// The bits that are spent before any sample is coded.
#[derive(Clone, Copy)]
pub struct FixedBitBudget {
    // The bits of the frame.
    pub cb: u32,
    // The header's.
    pub bhdr: u32,
    // The CRC's, or 0.
    pub bcrc: u32,
    // The allocation fields'.
    pub bbal: u32,
    // How many subbands are carried.
    pub sblimit: usize,
    // From this subband on one allocation field serves both channels.
    pub bound: usize,
    pub channels: usize,
    pub table: BitAllocTable,
}

impl FixedBitBudget {
    // The header of 2.4.1.3.
    pub const HEADER_BITS: u32 = 32;

    // The CRC of 2.4.1.4.
    pub const CRC_BITS: u32 = 16;

    // What the first step of a channel in a subband costs besides its samples: 2 bits of scfsi and three scalefactors of 6 bits. Which of
    // the three are sent is decided after the allocation, so all are counted.
    pub const FIRST_STEP_BITS: u32 = 20;

    // The bits of the header, the CRC and the allocation fields. A budget that no header has may hold any numbers: their sum has 64 bits.
    pub fn fixed(self) -> u64
        ensures { result ≡ fixed_in self }
    {
        u64::from(self.bhdr) + u64::from(self.bcrc) + u64::from(self.bbal)
    }

    // The bits that are left beside the fixed ones and `banc` ancillary bits; below 0 where they do not fit the frame.
    pub fn offered(self, banc: u32) -> i64
        ensures { result ≡ offered_in self banc }
    {
        let spent = self.fixed() + (banc as u64);
        (self.cb as i64) - (spent as i64)
    }

    // Where the frame's fields are.
    pub fn layout(self) -> Layout
        ensures { result ≡ layout_in self }
    {
        let table = self.table;
        Layout {
            table,
            bound: self.bound,
            channels: self.channels,
        }
    }
}

impl Request {
    // The bits that are fixed for the frame.
    pub fn budget(self) -> Result<FixedBitBudget, BitAllocError>
        ensures { BudgetIs self result }
    {
        let header = self.header;
        if !ladder::on_ladder(header) {
            return Err(BitAllocError::RateOffLadder);
        }
        let table = table_selection::select_table(header).ok_or(BitAllocError::NoBitallocTable)?;
        budget_under(header, table)
    }
}

// The budget under the table that was selected. At 384 kbit/s, the ladder's end, and 1 Hz a frame would have 55,296,001 bytes with padding, so the
// bits of every frame fit 32 bits.
fn budget_under(header: FrameHeader, table: BitAllocTable) -> Result<FixedBitBudget, BitAllocError>
    requires rate { on_ladder header ≡ true }
    requires named { table_of header ≡ Some table }
    ensures { BudgetIs (plain header 0) result }
{
    let bytes = header
        .frame_size_bytes()
        .ok_or(BitAllocError::ZeroSampleRate)?;
    let layout = Layout::of_header(header, table);
    Ok(budget_with(8 * (bytes as u32), header.protection_bit, layout))
}

// The bits that are fixed for a header's frame.
pub fn fixed_bit_budget(header: FrameHeader) -> Result<FixedBitBudget, BitAllocError>
    ensures { BudgetIs (plain header 0) result }
{
    let request = Request { header, banc: 0 };
    request.budget()
}

// The budget of a frame of `cb` bits in a layout.
fn budget_with(cb: u32, protection_bit: bool, layout: Layout) -> FixedBitBudget
    ensures { result ≡ budget_with cb (crc_bits protection_bit) layout }
{
    let table = layout.table;
    let bcrc = crc_bits(protection_bit);
    let bbal = allocation_bits(layout);
    FixedBitBudget {
        cb,
        bhdr: FixedBitBudget::HEADER_BITS,
        bcrc,
        bbal,
        sblimit: table.sblimit(),
        bound: layout.bound,
        channels: layout.channels,
        table,
    }
}

// The CRC is there where the protection bit is 0 (2.4.2.3).
fn crc_bits(protection_bit: bool) -> u32
    ensures { result ≡ crc_bits protection_bit }
{
    if protection_bit {
        0
    } else {
        FixedBitBudget::CRC_BITS
    }
}

// The bits of all allocation fields.
fn allocation_bits(layout: Layout) -> u32
    ensures { result ≡ allocation_bits layout }
{
    let table = layout.table;
    let fields = layout.fields();
    let mut bits: u32 = 0;
    for f in 0..fields {
        let field = layout.field(f);
        bits += table.nbal(field.subband);
    }
    bits
}

// What the frame offers to samples and scalefactors beside `banc` ancillary bits; it may be below 0.
pub fn available_data_bits(header: FrameHeader, banc: u32) -> Result<i64, BitAllocError>
    ensures { available_in result ≡ available_of (plain header banc) }
{
    let budget = Request { header, banc }.budget()?;
    Ok(budget.offered(banc))
}
