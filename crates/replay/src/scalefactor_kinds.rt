// Kinds of scalefactor indices and of their selection.
use crate::answers::verdict_of;
use crate::arguments::flag;
use audio_data::Scfsi;
use encoder_scfsi::TransmissionPattern;
use replay_answers::{Verdict, verdict_on};
use std::num::f64_from_bits_with_nan as double;

// Magnitude -> index.
pub fn pick_scalefactor_index(numbers: &[u64]) -> Option<Verdict> {
    verdict_of(numbers, |magnitude| {
        u64::from(encoder_scalefactors::pick_scalefactor_index(double(magnitude)))
    })
}

// Twelve samples -> index.
pub fn extract_scalefactor_index(numbers: &[u64]) -> Option<Verdict> {
    let (samples, expected) = numbers.split_first_chunk::<12>()?;
    let samples = samples.map(|bits| double(bits));
    let index = encoder_scalefactors::extract_scalefactor_index(&samples);
    verdict_on(expected, &[u64::from(index)])
}

// Limit m, then position and sample, m times -> 96 indices, those of granule 0 first. The position is
// 36 * subband + sample; m is at most 70, and the samples that are not given are 0.0.
pub fn compute_scalefactors(numbers: &[u64]) -> Option<Verdict> {
    let [limit, given, rest @ ..] = numbers else {
        return None;
    };
    if *given > 70 {
        return None;
    }
    let (placed, expected) = rest.split_at_checked(2 * *given as usize)?;
    let samples = samples_at(placed)?;
    let indices = encoder_scalefactors::compute_scalefactors(&samples, *limit as usize);
    let answers = indices.map(|granule| granule.map(u64::from));
    verdict_on(expected, answers.as_flattened())
}

// The samples that a line gives, each behind its position.
fn samples_at(placed: &[u64]) -> Option<[[f64; 36]; 32]> {
    let mut samples = [[0.0; 36]; 32];
    let (pairs, _) = placed.as_chunks::<2>();
    for [position, sample] in pairs {
        let place = samples.as_flattened_mut().get_mut(*position as usize)?;
        *place = double(*sample);
    }
    Some(samples)
}

// Three indices -> the nine numbers of `selection`.
pub fn select_scfsi(numbers: &[u64]) -> Option<Verdict> {
    let [a, b, c, expected @ ..] = numbers else {
        return None;
    };
    let indices = [
        u8::try_from(*a).ok()?,
        u8::try_from(*b).ok()?,
        u8::try_from(*c).ok()?,
    ];
    verdict_on(expected, &selection(indices).map(u64::from))
}

// First index -> checksum.
pub fn scfsi_checksum(numbers: &[u64]) -> Option<Verdict> {
    verdict_of(numbers, |a| u64::from(checksum(a)))
}

// What is selected for three indices: the three used, 1 for each of them that is transmitted, the code of the scfsi, and
// the two classes.
fn selection(indices: [u8; 3]) -> [u8; 9] {
    let selected = encoder_scfsi::select_scfsi(indices);
    let [used0, used1, used2] = selected.used;
    let pattern = selected.pattern;
    [
        used0,
        used1,
        used2,
        u8::from(pattern.write0),
        u8::from(pattern.write1),
        u8::from(pattern.write2),
        selected.scfsi.code(),
        selected.class1.as_index(),
        selected.class2.as_index(),
    ]
}

// The checksum of the selections for a first index with each second and each third, 0 to 62, the third running fastest.
fn checksum(a: u8) -> u32 {
    let mut sum: u32 = 0;
    for b in 0..63 {
        for c in 0..63 {
            for number in selection([a, b, c]) {
                sum = sum.wrapping_mul(31).wrapping_add(u32::from(number));
            }
        }
    }
    sum
}

// Difference, as 16 bits -> class.
pub fn classify_difference(numbers: &[u64]) -> Option<Verdict> {
    verdict_of(numbers, |bits: u16| {
        let class = encoder_scfsi::classify_difference(bits.cast_signed());
        u64::from(class.as_index())
    })
}

// For each of three indices 1 where it is transmitted, else 0 -> how many are.
pub fn transmitted_count(numbers: &[u64]) -> Option<Verdict> {
    let [a, b, c, expected @ ..] = numbers else {
        return None;
    };
    let pattern = TransmissionPattern {
        write0: flag(*a)?,
        write1: flag(*b)?,
        write2: flag(*c)?,
    };
    verdict_on(expected, &[pattern.transmitted_count() as u64])
}

// Code of the scfsi -> how many indices are transmitted.
pub fn parts_on_wire(numbers: &[u64]) -> Option<Verdict> {
    let [code, expected @ ..] = numbers else {
        return None;
    };
    if *code > 3 {
        return None;
    }
    let scfsi = Scfsi::of_code(*code as u8);
    verdict_on(expected, &[scfsi.parts_on_wire() as u64])
}
