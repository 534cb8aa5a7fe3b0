// Scalefactor indices: the search for the multiplier of Table 3-B.1 that covers a granule's samples (ISO/IEC 11172-3 C.1.5.2).
#![tactic(auto)]

ghost use Rattle.std.specs.Prelude.{◌≡◌, ◌+◌, ◌<◌, ◌≤◌, length};
ghost use Rattle.encoder_scalefactors.specs.Indices.{index_at, granule_of, indices_of, PickIs, ScalefactorIndexIs};

use std::array;

// Granules of a frame, samples of a granule, and samples of a subband in a frame.
pub const SCALEFACTOR_GRANULES: usize = 3;

pub const GRANULE_LEN: usize = 12;

pub const SUBBAND_SAMPLES_PER_FRAME: usize = 36;

// The last index whose multiplier is at least `max_abs`; 0 where there is none, as for a NaN. The multipliers descend: those that cover
// `max_abs` stand below those that do not.
pub fn pick_scalefactor_index(max_abs: f64) -> u8
    ensures { PickIs max_abs result }
{
    let covering = tables::multipliers().partition_point(|multiplier| *multiplier >= max_abs);
    covering.saturating_sub(1) as u8
}

// The index of a granule's twelve samples.
pub fn extract_scalefactor_index(samples: &[f64; GRANULE_LEN]) -> u8
    ensures { ScalefactorIndexIs samples.now 0 result }
{
    index_from(samples, 0)
}

// The indices of a frame's samples, by granule and subband. Subbands from `sblimit` on have no samples to code, and the last index.
pub fn compute_scalefactors(
    subband_samples: &[[f64; SUBBAND_SAMPLES_PER_FRAME]; 32],
    sblimit: usize,
) -> [[u8; 32]; SCALEFACTOR_GRANULES]
    ensures { result ≡ indices_of subband_samples.now sblimit }
{
    [
        granule(subband_samples, sblimit, 0),
        granule(subband_samples, sblimit, 1),
        granule(subband_samples, sblimit, 2),
    ]
}

// The indices of one granule, by subband.
fn granule(
    subband_samples: &[[f64; SUBBAND_SAMPLES_PER_FRAME]; 32],
    sblimit: usize,
    g: usize,
) -> [u8; 32]
    requires { g < 3 }
    ensures { result ≡ granule_of subband_samples.now sblimit g }
{
    array::from_fn(|sb| index_at(subband_samples, sblimit, g, sb))
}

// The index of one granule of one subband.
fn index_at(
    subband_samples: &[[f64; SUBBAND_SAMPLES_PER_FRAME]; 32],
    sblimit: usize,
    g: usize,
    sb: usize,
) -> u8
    requires { (g < 3) × (sb < 32) }
    ensures { result ≡ index_at subband_samples.now sblimit g sb }
{
    if sb < sblimit {
        index_from(&subband_samples[sb], GRANULE_LEN * g)
    } else {
        62
    }
}

// The index of the twelve samples from `start` on.
fn index_from(samples: &[f64], start: usize) -> u8
    requires { start + 12 ≤ length samples.now }
    ensures { ScalefactorIndexIs samples.now start result }
{
    let mut max_abs: f64 = 0.0;
    for sample in &samples[start..start + GRANULE_LEN] {
        max_abs = ieee_order::max(max_abs, ieee_order::abs(*sample));
    }
    pick_scalefactor_index(max_abs)
}
