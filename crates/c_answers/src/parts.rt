// What the other crates answer, in the parts that C takes: a number and values.
ghost use Rattle.std.specs.Prelude.{◌≡◌};
ghost use Rattle.c_answers.specs.Told.{told_result, told_option};
ghost use Rattle.c_answers.specs.Replies.{limits_of, class_or, figures_of, triplet_values, selection_values};

use bitalloc::BitAllocTable;
use encoder_bit_budget::BitAllocError;
use encoder_samples::Triplet;
use encoder_scfsi::ScfsiSelection;
use quantization::QuantClass;

// The number that is answered where the steps are none of the seventeen classes of quantization.
pub const NO_CLASS: u32 = 5;

// What C takes of an answer: a number, 0 where there is a value, and the value, or what stands in its place beside a refusal.
// Kept: C takes the number as the call's answer and finds values in its slice beside a refusal too, so both are there at once.
#[derive(Clone, Copy)]
pub struct Told<T> {
    pub number: u32,
    pub value: T,
}

impl<T: Copy> Told<T> {
    // Of an answer that a header may be refused.
    pub fn of_result(answer: Result<T, BitAllocError>, filler: T) -> Told<T>
        ensures { result ≡ told_result answer filler }
    {
        match answer {
            Ok(value) => Told { number: 0, value },
            Err(error) => Told {
                number: error.number(),
                value: filler,
            },
        }
    }

    // Of what may be missing, which has a number of its own.
    pub fn of_option(found: Option<T>, missing: u32, filler: T) -> Told<T>
        ensures { result ≡ told_option found missing filler }
    {
        match found {
            Some(value) => Told { number: 0, value },
            None => Told {
                number: missing,
                value: filler,
            },
        }
    }
}

// Grouping, samples and bits per codeword, bits per sample; zeros without a class.
#[tactic(auto, using(crate::proofs::AnswerLaws::as_bit), unfolding(quantization::specs::Classes::bits_per_sample))]
pub fn figures(found: Option<QuantClass>) -> [u32; 4]
    ensures { result ≡ figures_of (class_or found) }
{
    match found {
        Some(class) => [
            class.grouping as u32,
            class.samples_per_codeword,
            class.bits_per_codeword,
            class.bits_per_sample(),
        ],
        None => [0; 4],
    }
}

// How many subbands a table carries, and the bits of a subband's allocation field.
pub fn limits(table: BitAllocTable, sb: usize) -> [u32; 2]
    ensures { result ≡ limits_of table sb }
{
    [table.sblimit() as u32, table.nbal(sb)]
}

// Count, width and the three codewords.
pub fn triplet_values(triplet: Triplet) -> [u32; 5]
    ensures { result ≡ triplet_values triplet }
{
    let [first, second, third] = triplet.codewords;
    [triplet.count, triplet.width, first, second, third]
}

// The three used, three write flags, scfsi, and both classes.
#[tactic(auto, using(crate::proofs::AnswerLaws::as_bit))]
pub fn selection_values(selection: ScfsiSelection) -> [u8; 9]
    ensures { result ≡ selection_values selection }
{
    let used = selection.used;
    let pattern = selection.pattern;
    let scfsi = selection.scfsi;
    let class1 = selection.class1;
    let class2 = selection.class2;
    [
        used[0],
        used[1],
        used[2],
        pattern.write0 as u8,
        pattern.write1 as u8,
        pattern.write2 as u8,
        scfsi.code(),
        class1.as_index(),
        class2.as_index(),
    ]
}
