// The codes of samples, and the codewords of three.
ghost use Rattle.std.specs.Prelude.{[], ◌∷◌, ltb, length, Some};
ghost use Rattle.c_answers.specs.Answers.{asked, answered, Answers};
ghost use Rattle.c_answers.specs.Refusals.{number_in};
ghost use Rattle.c_answers.specs.Replies.{sample_coded, triplet_coded};

use c_answers::parts::{NO_CLASS, Told};
use c_answers::refusal::{Refusal, room};
use c_answers::{parts, writing};

// The code of a sample in the class of a number of steps.
// Kept: here and below the arguments are those of the C function of the same name, each by itself.
pub fn quantize_sample(steps: u32, sample: f64, out: &mut [u32]) -> Result<u32, Refusal>
    ensures { Answers
        (answered
        (asked (ltb (length out.old) 1) (Some steps))
        (sample_coded sample))
        out.old (number_in result) out.new }
{
    room(out.len(), 1)?;
    let found = encoder_samples::quantize_sample_for(steps, sample);
    let code = Told::of_option(found, NO_CLASS, 0);
    out[0] = code.value;
    Ok(code.number)
}

// The codewords of three consecutive samples in the class of a number of steps.
pub fn write_triplet(steps: u32, a: f64, b: f64, c: f64, out: &mut [u32]) -> Result<u32, Refusal>
    ensures { Answers
        (answered
        (asked (ltb (length out.old) 5) (Some steps))
        (triplet_coded (a ∷ b ∷ c ∷ [])))
        out.old (number_in result) out.new }
{
    room(out.len(), 5)?;
    let found = encoder_samples::write_triplet_for(steps, [a, b, c]);
    let triplet = Told::of_option(found.map(parts::triplet_values), NO_CLASS, [0; 5]);
    writing::put(&triplet.value, out);
    Ok(triplet.number)
}
