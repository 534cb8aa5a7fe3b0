// The functions of samples: their codes, and the codewords of three.
ghost use Rattle.std.specs.Prelude.{Some};
ghost use Rattle.std.specs.Prelude.{[], ◌∷◌, ltb, length};
ghost use Rattle.c_answers.specs.Answers.{asked, answered, Answers};
ghost use Rattle.c_answers.specs.Replies.{sample_coded, triplet_coded};

// The code of a sample in the class of a number of steps.
// Kept: here and below: C needs each name, and takes numbers and slices by position, in the order of include/folgrist_mp2.h.
#[unsafe(no_mangle)]
pub extern "C" fn folgrist_quantize_sample(steps: u32, sample: f64, out: &mut [u32]) -> u32
    ensures { Answers
        (answered
        (asked (ltb (length out.old) 1) (Some steps))
        (sample_coded sample))
        out.old result out.new }
{
    folgrist_mp2::samples::folgrist_quantize_sample(steps, sample, out)
}

// The codewords of three consecutive samples in the class of a number of steps.
#[unsafe(no_mangle)]
pub extern "C" fn folgrist_write_triplet(steps: u32, a: f64, b: f64, c: f64, out: &mut [u32]) -> u32
    ensures { Answers
        (answered
        (asked (ltb (length out.old) 5) (Some steps))
        (triplet_coded (a ∷ b ∷ c ∷ [])))
        out.old result out.new }
{
    folgrist_mp2::samples::folgrist_write_triplet(steps, a, b, c, out)
}
