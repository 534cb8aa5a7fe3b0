// Lines of scalefactor indices, scfsi and sample codes.
use crate::show;
use std::io;

pub fn scalefactors(rt: &impl Print) -> io::Result<()> {
    let answered = [0.0, 1.0, 2.0, 3.0].map(index);
    show::numbers(
        rt,
        "scalefactor index of the maxima 0.0, 1.0, 2.0 and 3.0:",
        &[62, 3, 0, 0],
        &answered,
    )
}

fn index(max_abs: f64) -> u64 {
    u64::from(encoder_scalefactors::pick_scalefactor_index(max_abs))
}

pub fn scfsi(rt: &impl Print) -> io::Result<()> {
    show::numbers(
        rt,
        "scalefactor indices used for 10, 12, 11:",
        &[10, 10, 10],
        &used([10, 12, 11]),
    )?;
    show::numbers(rt, "for 0, 3, 3:", &[0, 3, 3], &used([0, 3, 3]))?;
    show::numbers(rt, "for 0, 2, 4:", &[0, 0, 0], &used([0, 2, 4]))
}

fn used(given: [u8; 3]) -> [u64; 3] {
    encoder_scfsi::select_scfsi(given).used.map(u64::from)
}

pub fn samples(rt: &impl Print) -> io::Result<()> {
    let answered = [
        code(3, -1.0),
        code(3, 0.0),
        code(3, 1.0),
        codeword_of_ones(),
    ];
    show::numbers(
        rt,
        "3 steps: codes of -1, 0 and 1, codeword of three ones:",
        &[0, 1, 2, 26],
        &answered,
    )?;
    let answered = [code(7, 1.0), code(7, 2.0)];
    show::numbers(rt, "7 steps: codes of 1.0 and 2.0:", &[6, 7], &answered)?;
    let answered = [code(15, 1.0)];
    show::numbers(rt, "15 steps: code of 1.0:", &[15], &answered)
}

// The code of a sample; where the steps have no class, a number that no code is.
// Kept: nothing is converted by hand: it is std's `map_or`, with what six calls share, the type and the number where there is no class.
fn code(nb_steps: u32, sample: f64) -> u64 {
    encoder_samples::quantize_sample_for(nb_steps, sample).map_or(u64::MAX, u64::from)
}

// The codeword of three samples of 1.0 with 3 steps.
fn codeword_of_ones() -> u64 {
    encoder_samples::write_triplet_for(3, [1.0; 3]).map_or(
        u64::MAX,
        |triplet| u64::from(triplet.codewords[0]),
    )
}
