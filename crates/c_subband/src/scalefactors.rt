// The functions of scalefactors: indices of samples, and which of a slot's three are used and transmitted.
ghost use Rattle.std.specs.Prelude.{◌≡◌, ◌||◌, [], ◌∷◌, ◌<◌, ◌≤◌, ltb, length, MatchOption, Some};
ghost use Rattle.c_answers.specs.Answers.{asked, answered, Answers};
ghost use Rattle.c_answers.specs.Refusals.{number_in};
ghost use Rattle.c_answers.specs.Replies.{granule_indexed, subband_rows, frame_indexed, scfsi_selected};

use c_answers::refusal::{Refusal, room};
use c_answers::{parts, writing};

// Which of three scalefactor indices are used, and which are transmitted.
// Kept: here and below the arguments are those of the C function of the same name, each by itself.
pub fn select_scfsi(a: u8, b: u8, c: u8, out: &mut [u8]) -> Result<u32, Refusal>
    ensures { Answers
        (answered
        (asked (ltb (length out.old) 9) (Some (a ∷ b ∷ c ∷ [])))
        scfsi_selected)
        out.old (number_in result) out.new }
{
    room(out.len(), 9)?;
    let selection = encoder_scfsi::select_scfsi([a, b, c]);
    writing::put(&parts::selection_values(selection), out);
    Ok(0)
}

// The index of a granule's twelve samples.
pub fn extract_scalefactor_index(samples: &[f64], out: &mut [u8]) -> Result<u32, Refusal>
    ensures { Answers
        (answered
        (asked (ltb (length samples.now) 12 || ltb (length out.old) 1) (Some samples.now))
        granule_indexed)
        out.old (number_in result) out.new }
{
    let granule = samples.first_chunk().ok_or(Refusal::Short)?;
    room(out.len(), 1)?;
    out[0] = encoder_scalefactors::extract_scalefactor_index(granule);
    Ok(0)
}

// The indices of a frame's samples.
#[tactic(auto, using(crate::proofs::SampleLaws::flattened))]
pub fn compute_scalefactors(samples: &[f64], limit: u64, out: &mut [u8]) -> Result<u32, Refusal>
    ensures { Answers
        (answered
        (asked (ltb (length samples.now) 1152 || ltb (length out.old) 96) (Some samples.now))
        (frame_indexed limit))
        out.old (number_in result) out.new }
{
    let rows = subband_rows(samples).ok_or(Refusal::Short)?;
    room(out.len(), 96)?;
    let indices = encoder_scalefactors::compute_scalefactors(rows, limit as usize);
    writing::put(indices.as_flattened(), out);
    Ok(0)
}

// The samples by subband, where there are enough.
fn subband_rows(samples: &[f64]) -> Option<&[[f64; 36]; 32]>
    ensures { MatchOption result (length samples.now < 1152) (λ rows. (1152 ≤ length samples.now) × (rows.now ≡ subband_rows samples.now)) }
{
    samples.as_chunks().0.first_chunk()
}
