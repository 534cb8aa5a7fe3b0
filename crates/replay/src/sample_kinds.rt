// Kinds of sample codes.
use encoder_samples::Triplet;
use replay_answers::{Verdict, pair_verdict, verdict_on};
use std::num::f64_from_bits_with_nan as double;

// Steps sample -> number code: the number is 0, or 5 where no class has these steps.
pub fn quantize_sample(numbers: &[u64]) -> Option<Verdict> {
    let [steps, sample, expected @ ..] = numbers else {
        return None;
    };
    let steps = u32::try_from(*steps).ok()?;
    match encoder_samples::quantize_sample_for(steps, double(*sample)) {
        Some(code) => pair_verdict(expected, 0, u64::from(code)),
        None => pair_verdict(expected, 5, 0),
    }
}

// Steps, three samples -> number count width, three codewords: the number is 0, or 5 where no class has these steps.
pub fn write_triplet(numbers: &[u64]) -> Option<Verdict> {
    let [steps, a, b, c, expected @ ..] = numbers else {
        return None;
    };
    let steps = u32::try_from(*steps).ok()?;
    let samples = [double(*a), double(*b), double(*c)];
    let answers = triplet_numbers(encoder_samples::write_triplet_for(steps, samples));
    verdict_on(expected, &answers)
}

fn triplet_numbers(written: Option<Triplet>) -> [u64; 6] {
    let Some(triplet) = written else {
        return [5, 0, 0, 0, 0, 0];
    };
    let [first, second, third] = triplet.codewords;
    [0, triplet.count, triplet.width, first, second, third].map(u64::from)
}
