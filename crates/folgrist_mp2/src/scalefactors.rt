// The functions of scalefactors: indices of samples, and which of a slot's three are used and transmitted.
ghost use Rattle.std.specs.Prelude.{◌||◌, [], ◌∷◌, ltb, length};
ghost use Rattle.std.specs.Prelude.{Some};
ghost use Rattle.encoder_scalefactors.specs.Indices.{PickIs};
ghost use Rattle.c_answers.specs.Answers.{asked, answered, Answers};
ghost use Rattle.c_answers.specs.Replies.{granule_indexed, frame_indexed, scfsi_selected};

use c_answers::refusal::number_of;
use c_subband::scalefactors;

// The last index whose multiplier is at least `max_abs`.
// Kept: here and below: C needs each name, and takes numbers and slices by position, in the order of include/folgrist_mp2.h.
pub fn folgrist_pick_scalefactor_index(max_abs: f64) -> u8
    ensures { PickIs max_abs result }
{
    encoder_scalefactors::pick_scalefactor_index(max_abs)
}

// Which of three scalefactor indices are used, and which are transmitted.
pub fn folgrist_select_scfsi(a: u8, b: u8, c: u8, out: &mut [u8]) -> u32
    ensures { Answers
        (answered
        (asked (ltb (length out.old) 9) (Some (a ∷ b ∷ c ∷ [])))
        scfsi_selected)
        out.old result out.new }
{
    number_of(scalefactors::select_scfsi(a, b, c, out))
}

// The index of a granule's twelve samples.
pub fn folgrist_extract_scalefactor_index(samples: &[f64], out: &mut [u8]) -> u32
    ensures { Answers
        (answered
        (asked (ltb (length samples.now) 12 || ltb (length out.old) 1) (Some samples.now))
        granule_indexed)
        out.old result out.new }
{
    number_of(scalefactors::extract_scalefactor_index(samples, out))
}

// The indices of a frame's samples.
pub fn folgrist_compute_scalefactors(samples: &[f64], limit: u64, out: &mut [u8]) -> u32
    ensures { Answers
        (answered
        (asked (ltb (length samples.now) 1152 || ltb (length out.old) 96) (Some samples.now))
        (frame_indexed limit))
        out.old result out.new }
{
    number_of(scalefactors::compute_scalefactors(samples, limit, out))
}
