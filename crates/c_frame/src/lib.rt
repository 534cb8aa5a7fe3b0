// The functions of the C library that take a header, as seven numbers. The function of the same name in `folgrist_mp2` hands over the numbers and the slices
// under the same contract; here the slices' lengths are asked about first (98), then what the numbers mean (14), then what the function itself asks.
#![tactic(auto)]

ghost use Rattle.std.specs.Prelude.{◌≡◌, ◌||◌, ◌<◌, ◌≤◌, ltb, length, Err, MatchResult};
ghost use Rattle.layout.specs.Slots.{smr_rows};
ghost use Rattle.encoder_bit_budget.specs.Budget.{Bounded};
ghost use Rattle.encoder_bit_allocator.specs.Allocation.{answer_in};
ghost use Rattle.c_answers.specs.Answers.{asked, answered, Answers};
ghost use Rattle.c_answers.specs.Arguments.{header_numbered};
ghost use Rattle.c_answers.specs.Refusals.{number_in};
ghost use Rattle.c_answers.specs.declared.refusal.Refusal.TheVariants.{Short};
ghost use Rattle.c_answers.specs.Replies.{table_selected, frame_sized, budget_values};
ghost use Rattle.c_answers.specs.Replies.{budget_fixed, bits_available, bits_demanded, steps_allocated, bits_allocated, allocation_values};

use bitalloc::BitAllocTable;
use c_answers::arguments::HeaderNumbers;
use c_answers::parts::Told;
use c_answers::refusal::{Refusal, room};
use c_answers::writing;
use encoder_bit_budget::{BitAllocError, FixedBitBudget};
use header::FrameHeader;
use layout::slots;

// The allocation table that a header selects.
pub fn select_table(given: HeaderNumbers, out: &mut [u32]) -> Result<u32, Refusal>
    ensures { Answers
        (answered (asked (ltb (length out.old) 1) (header_numbered given)) table_selected)
        out.old (number_in result) out.new }
{
    room(out.len(), 1)?;
    let header = FrameHeader::try_from(given)?;
    let selected = table_selection::select_table(header).ok_or(BitAllocError::NoBitallocTable);
    let table = Told::of_result(selected.map(BitAllocTable::number), 0);
    out[0] = table.value;
    Ok(table.number)
}

// The length of the frame in bytes.
pub fn frame_size_bytes(given: HeaderNumbers, out: &mut [u64]) -> Result<u32, Refusal>
    ensures { Answers
        (answered (asked (ltb (length out.old) 1) (header_numbered given)) frame_sized)
        out.old (number_in result) out.new }
{
    room(out.len(), 1)?;
    let header = FrameHeader::try_from(given)?;
    let bytes = header
        .frame_size_bytes()
        .ok_or(BitAllocError::ZeroSampleRate);
    let size = Told::of_result(bytes, 0);
    out[0] = size.value;
    Ok(size.number)
}

// The bits that are fixed for the frame.
pub fn fixed_bit_budget(given: HeaderNumbers, out: &mut [u32]) -> Result<u32, Refusal>
    ensures { Answers
        (answered (asked (ltb (length out.old) 8) (header_numbered given)) budget_fixed)
        out.old (number_in result) out.new }
{
    room(out.len(), 8)?;
    let header = FrameHeader::try_from(given)?;
    let answer = encoder_bit_budget::fixed_bit_budget(header);
    let budget = Told::of_result(answer.map(budget_values), [0; 8]);
    writing::put(&budget.value, out);
    Ok(budget.number)
}

// A budget as C has it.
fn budget_values(budget: FixedBitBudget) -> [u32; 8]
    requires { Bounded budget }
    ensures { result ≡ budget_values budget }
{
    let table = budget.table;
    [
        budget.cb,
        budget.bhdr,
        budget.bcrc,
        budget.bbal,
        budget.sblimit as u32,
        budget.bound as u32,
        budget.channels as u32,
        table.number(),
    ]
}

// The bits that the frame offers beside `banc` ancillary bits.
pub fn available_data_bits(given: HeaderNumbers, banc: u32, out: &mut [i64]) -> Result<u32, Refusal>
    ensures { Answers
        (answered (asked (ltb (length out.old) 1) (header_numbered given)) (bits_available banc))
        out.old (number_in result) out.new }
{
    room(out.len(), 1)?;
    let header = FrameHeader::try_from(given)?;
    let offer = Told::of_result(encoder_bit_budget::available_data_bits(header, banc), 0);
    out[0] = offer.value;
    Ok(offer.number)
}

// The bits that the signal-to-mask ratios demand.
pub fn demand_bits(given: HeaderNumbers, smr_db: &[f64], out: &mut [u64]) -> Result<u32, Refusal>
    ensures { Answers
        (answered
        (asked (ltb (length smr_db.now) 64 || ltb (length out.old) 1) (header_numbered given))
        (bits_demanded smr_db.now))
        out.old (number_in result) out.new }
{
    let smr = rows(smr_db)?;
    room(out.len(), 1)?;
    let header = FrameHeader::try_from(given)?;
    let answer = encoder_bit_demand::demand_bits(header, smr);
    let demand = Told::of_result(answer, 0);
    out[0] = demand.value;
    Ok(demand.number)
}

// The ratios by channel and subband; refused where there are not 64.
fn rows(smr_db: &[f64]) -> Result<[[f64; 32]; 2], Refusal>
    ensures { MatchResult result (λ rows. (64 ≤ length smr_db.now) × (rows ≡ smr_rows smr_db.now)) (λ refusal. (refusal ≡ Short) × (length smr_db.now < 64)) }
{
    room(smr_db.len(), 64)?;
    Ok(slots::rows(smr_db))
}

// The steps of each slot, and the bits left.
// Kept: C hands over `banc` and each of the three slices by itself.
#[tactic(auto, unfolding(audio_data::specs::Record::filler))]
pub fn allocate_bits(
    given: HeaderNumbers,
    banc: u32,
    smr_db: &[f64],
    steps: &mut [u32],
    out: &mut [u32],
) -> Result<u32, Refusal>
    ensures steps_written { Answers
        (answered
        (asked (ltb (length smr_db.now) 64 || (ltb (length steps.old) 64 || ltb (length out.old) 4))
        (header_numbered given))
        (steps_allocated smr_db.now banc))
        steps.old (number_in result) steps.new }
    ensures out_written { Answers
        (answered
        (asked (ltb (length smr_db.now) 64 || (ltb (length steps.old) 64 || ltb (length out.old) 4))
        (header_numbered given))
        (bits_allocated smr_db.now banc))
        out.old (number_in result) out.new }
{
    let ratios = rows(smr_db)?;
    room(steps.len(), 64)?;
    room(out.len(), 4)?;
    let header = FrameHeader::try_from(given)?;
    let allocation = encoder_bit_allocator::allocate_bits(header, ratios, banc);
    // Kept: a refusal has values of its own beside its number (`shortfall`), where `Told` has the same filler for all.
    let (allocation_number, held, values) = match allocation {
        Ok(allocated) => {
            let held = allocated.audio.nb_steps;
            (0, held, [allocated.left, 0, 0, 0])
        }
        Err(error) => (error.number(), [0; 64], shortfall(error)),
    };
    writing::put(&held, steps);
    writing::put(&values, out);
    Ok(allocation_number)
}

// What a refusal has beside its number: no bits left, and cb, fixed and banc where they do not fit the frame.
fn shortfall(error: BitAllocError) -> [u32; 4]
    ensures { result ≡ allocation_values (answer_in (Err error)) }
{
    match error {
        BitAllocError::InsufficientFrameSize { cb, fixed, banc } => [0, cb, fixed, banc],
        BitAllocError::RateOffLadder
        | BitAllocError::NoBitallocTable
        | BitAllocError::ZeroSampleRate => { [0; 4] }
    }
}
