// Kinds of a frame's bits: those that are fixed, offered and demanded, and their allocation.
use crate::arguments::{header_of, ratios_of};
use bitalloc::BitAllocTable;
use encoder_bit_budget::{BitAllocError, FixedBitBudget};
use replay_answers::{Verdict, pair_verdict, verdict_on};
use std::num::f64_to_bits_with_nan;

// Steps -> found signal-to-noise ratio.
pub fn snr_db(numbers: &[u64]) -> Option<Verdict> {
    let [steps, expected @ ..] = numbers else {
        return None;
    };
    match encoder_bit_demand::snr_db(u32::try_from(*steps).ok()?) {
        Some(db) => pair_verdict(expected, 1, f64_to_bits_with_nan(db)),
        None => pair_verdict(expected, 0, 0),
    }
}

// H -> number cb bhdr bcrc bbal sblimit bound channels table.
pub fn fixed_bit_budget(numbers: &[u64]) -> Option<Verdict> {
    let (header, expected) = header_of(numbers)?;
    let answers = budget_numbers(encoder_bit_budget::fixed_bit_budget(header));
    verdict_on(expected, &answers)
}

fn budget_numbers(budget: Result<FixedBitBudget, BitAllocError>) -> [u64; 9] {
    match budget {
        Ok(b) => [
            0,
            u64::from(b.cb),
            u64::from(b.bhdr),
            u64::from(b.bcrc),
            u64::from(b.bbal),
            b.sblimit as u64,
            b.bound as u64,
            b.channels as u64,
            u64::from(b.table.number()),
        ],
        Err(error) => [u64::from(error.number()), 0, 0, 0, 0, 0, 0, 0, 0],
    }
}

// H banc -> number, bits offered as 64 bits.
pub fn available_data_bits(numbers: &[u64]) -> Option<Verdict> {
    let (header, rest) = header_of(numbers)?;
    let (banc, expected) = rest.split_first()?;
    match encoder_bit_budget::available_data_bits(header, u32::try_from(*banc).ok()?) {
        Ok(bits) => pair_verdict(expected, 0, bits.cast_unsigned()),
        Err(error) => pair_verdict(expected, u64::from(error.number()), 0),
    }
}

// H, 64 ratios -> number, bits demanded.
pub fn demand_bits(numbers: &[u64]) -> Option<Verdict> {
    let (header, rest) = header_of(numbers)?;
    let (ratios, expected) = ratios_of(rest)?;
    match encoder_bit_demand::demand_bits(header, ratios) {
        Ok(bits) => pair_verdict(expected, 0, bits),
        Err(error) => pair_verdict(expected, u64::from(error.number()), 0),
    }
}

// H banc, 64 ratios -> number left cb fixed banc, 64 numbers of steps.
pub fn allocate_bits(numbers: &[u64]) -> Option<Verdict> {
    let (header, rest) = header_of(numbers)?;
    let (banc, rest) = rest.split_first()?;
    let (ratios, expected) = ratios_of(rest)?;
    let (first, steps) = expected.split_at_checked(5)?;
    let allocation = encoder_bit_allocator::allocate_bits(
        header,
        ratios,
        u32::try_from(*banc).ok()?,
    );
    let (answers, nb_steps) = match allocation {
        Ok(allocated) => ([0, allocated.left, 0, 0, 0], allocated.audio.nb_steps),
        Err(error) => (refusal_numbers(error), [0; 64]),
    };
    let verdict = verdict_on(first, &answers.map(u64::from))?;
    let of_steps = verdict_on(steps, &nb_steps.map(u64::from))?;
    Some(verdict.and(of_steps))
}

// The number of a refusal, no bits left, and what stands beside 4.
fn refusal_numbers(error: BitAllocError) -> [u32; 5] {
    let number = error.number();
    match error {
        BitAllocError::InsufficientFrameSize { cb, fixed, banc } => [number, 0, cb, fixed, banc],
        _ => [number, 0, 0, 0, 0],
    }
}

// cb bhdr bcrc bbal sblimit bound channels table -> the bits that are fixed. The budget may be one that no header has.
pub fn fixed(numbers: &[u64]) -> Option<Verdict> {
    let [
        cb,
        bhdr,
        bcrc,
        bbal,
        sblimit,
        bound,
        channels,
        table,
        expected @ ..,
    ] = numbers
    else {
        return None;
    };
    let budget = FixedBitBudget {
        cb: u32::try_from(*cb).ok()?,
        bhdr: u32::try_from(*bhdr).ok()?,
        bcrc: u32::try_from(*bcrc).ok()?,
        bbal: u32::try_from(*bbal).ok()?,
        sblimit: *sblimit as usize,
        bound: *bound as usize,
        channels: *channels as usize,
        table: BitAllocTable::try_from(*table).ok()?,
    };
    verdict_on(expected, &[budget.fixed()])
}
