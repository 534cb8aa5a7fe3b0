// Kinds of headers, allocation tables, classes of quantization and multipliers.
use crate::answers::verdict_of;
use crate::arguments::header_of;
use bitalloc::BitAllocTable;
use header::{Mode, ModeExtension};
use quantization::QuantClass;
use replay_answers::{Verdict, found_verdict, pair_verdict, verdict_on};
use std::num::f64_to_bits_with_nan;

// The verdict on what is found in a table's row of a subband, by a place in it or by steps.
fn found_in_row<F: FnOnce(BitAllocTable, usize, u32) -> Option<u32>>(
    numbers: &[u64],
    find: F,
) -> Option<Verdict>
    requires { F.IsAlwaysCallable find }
{
    let [table, sb, key, expected @ ..] = numbers else {
        return None;
    };
    let table = BitAllocTable::try_from(*table).ok()?;
    let key = u32::try_from(*key).ok()?;
    found_verdict(expected, find(table, *sb as usize, key))
}

// Table -> sblimit.
pub fn sblimit(numbers: &[u64]) -> Option<Verdict> {
    verdict_of(numbers, |table: BitAllocTable| table.sblimit() as u64)
}

// Table sb -> nbal.
pub fn nbal(numbers: &[u64]) -> Option<Verdict> {
    let [table, sb, expected @ ..] = numbers else {
        return None;
    };
    let table = BitAllocTable::try_from(*table).ok()?;
    verdict_on(expected, &[u64::from(table.nbal(*sb as usize))])
}

// Table sb index -> found steps.
pub fn nb_steps(numbers: &[u64]) -> Option<Verdict> {
    found_in_row(numbers, |table, sb, index| table.nb_steps(sb, index))
}

// Table sb steps -> found index.
pub fn allocation_index(numbers: &[u64]) -> Option<Verdict> {
    found_in_row(
        numbers,
        |table, sb, steps| table.allocation_index(sb, steps),
    )
}

// Mode -> channels.
pub fn mode_channels(numbers: &[u64]) -> Option<Verdict> {
    verdict_of(numbers, |mode: Mode| mode.channels() as u64)
}

// Extension -> bound.
pub fn bound(numbers: &[u64]) -> Option<Verdict> {
    verdict_of(numbers, |extension: ModeExtension| extension.bound() as u64)
}

// H -> 0 or 1.
pub fn is_free_format(numbers: &[u64]) -> Option<Verdict> {
    let (header, expected) = header_of(numbers)?;
    verdict_on(expected, &[u64::from(header.is_free_format())])
}

// H -> number bytes: the number is 0, or 2 where the sample rate is 0.
pub fn frame_size_bytes(numbers: &[u64]) -> Option<Verdict> {
    let (header, expected) = header_of(numbers)?;
    match header.frame_size_bytes() {
        Some(bytes) => pair_verdict(expected, 0, bytes),
        None => pair_verdict(expected, 2, 0),
    }
}

// H -> found kbps.
pub fn bitrate_per_channel_kbps(numbers: &[u64]) -> Option<Verdict> {
    let (header, expected) = header_of(numbers)?;
    found_verdict(expected, table_selection::bitrate_per_channel_kbps(header))
}

// H -> found table.
pub fn select_table(numbers: &[u64]) -> Option<Verdict> {
    let (header, expected) = header_of(numbers)?;
    let selected = table_selection::select_table(header);
    found_verdict(expected, selected.map(|table| table.number()))
}

// Steps -> found C D grouping samples_per_codeword bits_per_codeword.
pub fn class_of_quantization(numbers: &[u64]) -> Option<Verdict> {
    let [steps, expected @ ..] = numbers else {
        return None;
    };
    let steps = u32::try_from(*steps).ok()?;
    verdict_on(
        expected,
        &class_numbers(quantization::class_of_quantization(steps)),
    )
}

fn class_numbers(found: Option<QuantClass>) -> [u64; 6] {
    match found {
        Some(class) => [
            1,
            f64_to_bits_with_nan(class.c),
            f64_to_bits_with_nan(class.d),
            u64::from(class.grouping),
            u64::from(class.samples_per_codeword),
            u64::from(class.bits_per_codeword),
        ],
        None => [0; 6],
    }
}

// Steps -> 0 or 1.
pub fn is_grouped(numbers: &[u64]) -> Option<Verdict> {
    verdict_of(numbers, |steps| u64::from(quantization::is_grouped(steps)))
}

// Steps -> bits, of a class with these steps; the other fields play no part.
pub fn bits_per_sample(numbers: &[u64]) -> Option<Verdict> {
    verdict_of(numbers, |nb_steps| {
        let class = QuantClass {
            nb_steps,
            c: 0.0,
            d: 0.0,
            grouping: false,
            samples_per_codeword: 0,
            bits_per_codeword: 0,
        };
        u64::from(class.bits_per_sample())
    })
}

// Steps -> bits.
pub fn sample_bits_for(numbers: &[u64]) -> Option<Verdict> {
    verdict_of(
        numbers,
        |steps| u64::from(quantization::sample_bits_for(steps)),
    )
}

// Index -> multiplier.
pub fn scalefactors(numbers: &[u64]) -> Option<Verdict> {
    let [index, expected @ ..] = numbers else {
        return None;
    };
    let multipliers = tables::scalefactors();
    let multiplier = multipliers.get(*index as usize)?;
    verdict_on(expected, &[f64_to_bits_with_nan(*multiplier)])
}

// H -> channels.
pub fn channels(numbers: &[u64]) -> Option<Verdict> {
    let (header, expected) = header_of(numbers)?;
    verdict_on(expected, &[header.channels() as u64])
}
