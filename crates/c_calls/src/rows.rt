// The functions of an allocation table, and of a number of steps.
use crate::show;
use folgrist_mp2::table_rows;
use std::io;

pub fn ask(rt: &impl Print) -> io::Result<()> {
    table_limits(rt, 1, 3)?;
    nb_steps(rt, 1, 2, 3)?;
    allocation_index(rt, 1, 2, 15)?;
    class_of_quantization(rt, 5)?;
    sample_bits_for(rt, 9)?;
    snr_db(rt, 31)
}

// Kept: here and below each call writes its arguments out by position, since their order is what the program shows.
fn table_limits(rt: &impl Print, table: u8, sb: u64) -> io::Result<()> {
    let mut out = [9u32; 2];
    let number = table_rows::folgrist_table_limits(table, sb, &mut out);
    show::written(rt, "table_limits", number, &out)
}

fn nb_steps(rt: &impl Print, table: u8, sb: u64, index: u32) -> io::Result<()> {
    let mut out = [9u32; 1];
    let number = table_rows::folgrist_nb_steps(table, sb, index, &mut out);
    show::written(rt, "nb_steps", number, &out)
}

fn allocation_index(rt: &impl Print, table: u8, sb: u64, steps: u32) -> io::Result<()> {
    let mut out = [9u32; 1];
    let number = table_rows::folgrist_allocation_index(table, sb, steps, &mut out);
    show::written(rt, "allocation_index", number, &out)
}

fn class_of_quantization(rt: &impl Print, steps: u32) -> io::Result<()> {
    let mut cd = [9.0; 2];
    let mut out = [9u32; 4];
    let number = table_rows::folgrist_class_of_quantization(steps, &mut cd, &mut out);
    show::written(rt, "class_of_quantization", number, &out)?;
    show::written(rt, "class_of_quantization, cd", number, &cd.map(show::bits))
}

fn sample_bits_for(rt: &impl Print, steps: u32) -> io::Result<()> {
    show::returned(
        rt,
        "sample_bits_for",
        table_rows::folgrist_sample_bits_for(steps),
    )
}

fn snr_db(rt: &impl Print, steps: u32) -> io::Result<()> {
    let mut out = [9.0; 1];
    let number = table_rows::folgrist_snr_db(steps, &mut out);
    show::written(rt, "snr_db", number, &out.map(show::bits))
}
