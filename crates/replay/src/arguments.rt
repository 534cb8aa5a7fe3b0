// The arguments of a line: from its numbers to values of the library's types.
use audio_data::Scfsi;
use header::{FrameHeader, Mode, ModeExtension};
use side_info::SideInfo;
use std::array;
use std::num::f64_from_bits_with_nan as double;

// Of 0 or 1.
// Kept: std makes a number of a bool, and no bool of a number.
pub fn flag(n: u64) -> Option<bool> {
    match n {
        0 => Some(false),
        1 => Some(true),
        _ => None,
    }
}

// The header H, lsf bit_rate sample_rate padding protection_bit mode extension, and the numbers behind it.
pub fn header_of(numbers: &[u64]) -> Option<(FrameHeader, &[u64])> {
    let (head, rest) = numbers.split_first_chunk::<7>()?;
    let [
        lsf,
        bit_rate,
        sample_rate,
        padding,
        protection_bit,
        mode,
        extension,
    ] = *head;
    let mode = Mode::try_from(mode).ok()?;
    let mode_extension = ModeExtension::try_from(extension).ok()?;
    let header = FrameHeader {
        lsf: flag(lsf)?,
        bit_rate: u32::try_from(bit_rate).ok()?,
        sample_rate: u32::try_from(sample_rate).ok()?,
        padding: flag(padding)?,
        mode,
        mode_extension,
        protection_bit: flag(protection_bit)?,
    };
    Some((header, rest))
}

// The signal-to-mask ratios of 64 slots, those of channel 0 first, and the numbers behind them.
pub fn ratios_of(numbers: &[u64]) -> Option<([[f64; 32]; 2], &[u64])> {
    let (first, rest) = numbers.split_first_chunk::<32>()?;
    let (second, rest) = rest.split_first_chunk::<32>()?;
    let ratios = [
        first.map(|bits| double(bits)),
        second.map(|bits| double(bits)),
    ];
    Some((ratios, rest))
}

// A record, 64 numbers of steps, 2 numbers of 32 scfsi codes each and 24 numbers of 8 indices each, and the numbers behind it.
// What is packed has its first in the lowest bits of a number.
pub fn record_of(numbers: &[u64]) -> Option<(SideInfo, &[u64])> {
    let (steps, rest) = numbers.split_first_chunk::<64>()?;
    let (codes, rest) = rest.split_first_chunk::<2>()?;
    let (indices, rest) = rest.split_first_chunk::<24>()?;
    let info = SideInfo {
        steps: steps_of(steps)?,
        scfsi: unpacked_codes(*codes),
        scalefactors: bytes_of(indices),
    };
    Some((info, rest))
}

// Kept: a loop, since an array's `map` cannot end at a number that does not fit.
fn steps_of(numbers: &[u64; 64]) -> Option<[u32; 64]> {
    let mut steps = [0; 64];
    for (step, n) in steps.iter_mut().zip(numbers) {
        *step = u32::try_from(*n).ok()?;
    }
    Some(steps)
}

fn unpacked_codes(codes: [u64; 2]) -> [Scfsi; 64] {
    array::from_fn(|slot| Scfsi::of_code((codes[slot / 32] >> (2 * (slot % 32)) & 3) as u8))
}

// The bytes that numbers hold, eight each; 0 where the numbers end.
pub fn bytes_of<const N: usize>(numbers: &[u64]) -> [u8; N] {
    let mut bytes = [0; N];
    for (chunk, n) in bytes.chunks_exact_mut(8).zip(numbers) {
        chunk.copy_from_slice(&n.to_le_bytes());
    }
    bytes
}
