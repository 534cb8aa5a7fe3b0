// Sample coding of Layer II: ISO/IEC 11172-3 2.4.3.3.4 read backwards, from a normalized sample to its code, and from
// three consecutive samples to their codewords.
#![tactic(auto)]

ghost use Rattle.std.specs.Prelude.{◌≡◌, ◌+◌, ◌-◌, ◌*◌, ◌%◌, ◌^◌};
ghost use Rattle.encoder_samples.specs.Samples.{clamped, code_to, last_code, quantized, combined, triplet, NearestIs};
ghost use Rattle.encoder_samples.specs.Entries.{SampleCodeIs, TripletIs};
ghost use Rattle.encoder_samples.specs.Half.{HalfIs};

use quantization::QuantClass;

// The code of a sample, given as s'' (divided by its scalefactor), in a class of quantization.
pub fn quantize_sample(class: QuantClass, s_double_prime: f64) -> u32
    ensures { result ≡ quantized class s_double_prime }
{
    let last = last_code(class);
    code_to(last, class, s_double_prime)
}

// Half of the patterns of as many bits as a sample of the class has: 2^(n-1).
fn half_range(class: QuantClass) -> u32
    ensures { HalfIs class.nb_steps result }
{
    let n = class.bits_per_sample();
    1 << n.saturating_sub(1)
}

// A grouped class has a code for each step, any other as many as its bits allow.
fn last_code(class: QuantClass) -> u32
    ensures { result ≡ last_code class }
{
    let step = class.nb_steps.saturating_sub(1);
    let half = half_range(class);
    let all_ones = half - 1 + half;
    if class.grouping { step } else { all_ones }
}

// The code of a sample where the codes end at `last`.
fn code_to(last: u32, class: QuantClass, s_double_prime: f64) -> u32
    ensures { result ≡ code_to last class s_double_prime }
{
    let half = half_range(class);
    let s_triple_prime = s_double_prime / class.c - class.d;
    clamp(last, half, s_triple_prime * (half as f64))
}

// The whole number nearest to `value`, counted from -`half` as 0, and at most `last`.
// Kept: std's `clamp` would need a signed number: here what is below 0 is taken off `half`, stops at 0, and its half is rounded away from zero.
fn clamp(last: u32, half: u32, value: f64) -> u32
    ensures { result ≡ clamped last half value }
{
    let middle = u64::from(half);
    let code = if value < 0.0 {
        middle.saturating_sub(nearest_whole(-value))
    } else {
        middle + nearest_whole(value)
    };
    code.min(u64::from(last)) as u32
}

// The whole number nearest to `x`, halves up, at most 2^32; 0 where `x` is negative or NaN.
// Kept: std's `round` answers an f64, so that the tests of 0, NaN and 2^32 and the cast would stay; a doubling, which is exact, gives the whole number at once.
pub fn nearest_whole(x: f64) -> u64
    ensures { NearestIs x result }
{
    if x > 0.0 {
        if x < 4294967296.0 {
            // doubling is exact
            let halves = std::num::truncating_f64_to_u64(x * 2.0);
            (halves + 1) / 2
        } else {
            4_294_967_296
        }
    } else {
        0
    }
}

// Three samples' codewords: how many, the bits of each, and the codewords, with 0 in the places that are not used.
// Kept: one or three codewords of `width` bits each, in three places, as the Rust's `Triplet` has them; without a heap there is no list of one or three.
#[derive(Clone, Copy)]
pub struct Triplet {
    pub count: u32,
    pub width: u32,
    pub codewords: [u32; 3],
}

// The codewords of three consecutive samples of a subband in a class of quantization.
pub fn write_triplet(class: QuantClass, s_double_primes: [f64; 3]) -> Triplet
    ensures { result ≡ triplet class s_double_primes }
{
    let first = quantize_sample(class, s_double_primes[0]);
    let second = quantize_sample(class, s_double_primes[1]);
    let third = quantize_sample(class, s_double_primes[2]);
    let width = class.bits_per_codeword;
    if class.grouping {
        let codeword = group_combined(class.nb_steps, first, second, third);
        Triplet {
            count: 1,
            width,
            codewords: [codeword, 0, 0],
        }
    } else {
        Triplet {
            count: 3,
            width,
            codewords: [first, second, third],
        }
    }
}

// Three codes of a grouped class as the digits of one number.
fn group_combined(nb_steps: u32, first: u32, second: u32, third: u32) -> u32
    ensures { result ≡ combined nb_steps first second third % 2 ^ 32 }
{
    let upper = next_digit(third, nb_steps, second);
    next_digit(upper, nb_steps, first)
}

// A number with one more digit below, as 32 bits hold it.
fn next_digit(upper: u32, nb_steps: u32, digit: u32) -> u32
    ensures { result ≡ (upper * nb_steps + digit) % 2 ^ 32 }
{
    upper.wrapping_mul(nb_steps).wrapping_add(digit)
}

// The code of a sample in the class of a step count; none where there is no such class.
pub fn quantize_sample_for(nb_steps: u32, s_double_prime: f64) -> Option<u32>
    ensures { SampleCodeIs nb_steps s_double_prime result }
{
    let class = quantization::class_of_quantization(nb_steps)?;
    Some(quantize_sample(class, s_double_prime))
}

// The codewords of three consecutive samples in the class of a step count; none where there is no such class.
pub fn write_triplet_for(nb_steps: u32, s_double_primes: [f64; 3]) -> Option<Triplet>
    ensures { TripletIs nb_steps s_double_primes result }
{
    let found = quantization::class_of_quantization(nb_steps)?;
    Some(write_triplet(found, s_double_primes))
}
