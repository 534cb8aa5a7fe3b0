// The functions of scalefactors and samples.
use crate::show;
use folgrist_mp2::{samples, scalefactors};
use std::io;

pub fn ask(rt: &impl Print) -> io::Result<()> {
    pick_scalefactor_index(rt, 0.7)?;
    extract_scalefactor_index(rt)?;
    compute_scalefactors(rt, 20)?;
    select_scfsi(rt, 20, 10, 15)?;
    quantize_sample(rt, 7, 0.3)?;
    write_triplet(rt, 7, 0.9, 0.1, -0.6)?;
    write_triplet(rt, 5, 0.9, 0.1, -0.6)
}

// Kept: here and below each call writes its arguments out by position, since their order is what the program shows.
fn pick_scalefactor_index(rt: &impl Print, max_abs: f64) -> io::Result<()> {
    let index = scalefactors::folgrist_pick_scalefactor_index(max_abs);
    show::returned(rt, "pick_scalefactor_index", u32::from(index))
}

fn extract_scalefactor_index(rt: &impl Print) -> io::Result<()> {
    let frame = falling();
    let mut out = [9u8; 1];
    let number = scalefactors::folgrist_extract_scalefactor_index(&frame, &mut out);
    show::written(rt, "extract_scalefactor_index", number, &out)
}

fn compute_scalefactors(rt: &impl Print, limit: u64) -> io::Result<()> {
    let frame = falling();
    let mut out = [9u8; 96];
    let number = scalefactors::folgrist_compute_scalefactors(&frame, limit, &mut out);
    show::written(rt, "compute_scalefactors", number, &out)
}

// 1152 samples that fall from 0.9 by the same factor from one to the next.
fn falling() -> [f64; 1152] {
    let mut frame = [0.0; 1152];
    let mut sample = 0.9;
    for place in frame.iter_mut() {
        *place = sample;
        sample *= 0.99;
    }
    frame
}

fn select_scfsi(rt: &impl Print, a: u8, b: u8, c: u8) -> io::Result<()> {
    let mut out = [9u8; 9];
    let number = scalefactors::folgrist_select_scfsi(a, b, c, &mut out);
    show::written(rt, "select_scfsi", number, &out)
}

fn quantize_sample(rt: &impl Print, steps: u32, sample: f64) -> io::Result<()> {
    let mut out = [9u32; 1];
    let number = samples::folgrist_quantize_sample(steps, sample, &mut out);
    show::written(rt, "quantize_sample", number, &out)
}

fn write_triplet(rt: &impl Print, steps: u32, a: f64, b: f64, c: f64) -> io::Result<()> {
    let mut out = [9u32; 5];
    let number = samples::folgrist_write_triplet(steps, a, b, c, &mut out);
    show::written(rt, "write_triplet", number, &out)
}
