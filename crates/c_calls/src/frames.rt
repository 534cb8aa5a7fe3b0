// The functions of a header.
use crate::record::Record;
use crate::show;
use folgrist_mp2::{frame, side_information};
use std::io;

// The seven arguments of a header.
// Kept: of the form of `HeaderNumbers` of `c_answers`, on which this program does not stand: it calls `folgrist_mp2` alone, by numbers, as C does.
#[derive(Clone, Copy)]
pub struct Head {
    pub lsf: u8,
    pub bit_rate: u32,
    pub sample_rate: u32,
    pub padding: u8,
    pub protection_bit: u8,
    pub mode: u8,
    pub mode_extension: u8,
}

pub fn ask(rt: &impl Print, h: Head, banc: u32) -> io::Result<()> {
    select_table(rt, h)?;
    frame_size_bytes(rt, h)?;
    fixed_bit_budget(rt, h)?;
    available_data_bits(rt, h, banc)?;
    demand_bits(rt, h)?;
    allocate_bits(rt, h, banc)?;
    write_side_info(rt, h)
}

// Kept: here and below each call writes its arguments out by position, since their order is what the program shows.
fn select_table(rt: &impl Print, h: Head) -> io::Result<()> {
    let mut out = [9u32; 1];
    let number = frame::folgrist_select_table(
        h.lsf,
        h.bit_rate,
        h.sample_rate,
        h.padding,
        h.protection_bit,
        h.mode,
        h.mode_extension,
        &mut out,
    );
    show::written(rt, "select_table", number, &out)
}

fn frame_size_bytes(rt: &impl Print, h: Head) -> io::Result<()> {
    let mut out = [9u64; 1];
    let number = frame::folgrist_frame_size_bytes(
        h.lsf,
        h.bit_rate,
        h.sample_rate,
        h.padding,
        h.protection_bit,
        h.mode,
        h.mode_extension,
        &mut out,
    );
    show::written(rt, "frame_size_bytes", number, &out)
}

fn fixed_bit_budget(rt: &impl Print, h: Head) -> io::Result<()> {
    let mut out = [9u32; 8];
    let number = frame::folgrist_fixed_bit_budget(
        h.lsf,
        h.bit_rate,
        h.sample_rate,
        h.padding,
        h.protection_bit,
        h.mode,
        h.mode_extension,
        &mut out,
    );
    show::written(rt, "fixed_bit_budget", number, &out)
}

fn available_data_bits(rt: &impl Print, h: Head, banc: u32) -> io::Result<()> {
    let mut out = [9i64; 1];
    let number = frame::folgrist_available_data_bits(
        h.lsf,
        h.bit_rate,
        h.sample_rate,
        h.padding,
        h.protection_bit,
        h.mode,
        h.mode_extension,
        banc,
        &mut out,
    );
    show::written(
        rt,
        "available_data_bits",
        number,
        &out.map(|bits| u64::try_from(bits).unwrap_or(0)),
    )
}

fn demand_bits(rt: &impl Print, h: Head) -> io::Result<()> {
    let smr_db = ratios();
    let mut out = [9u64; 1];
    let number = frame::folgrist_demand_bits(
        h.lsf,
        h.bit_rate,
        h.sample_rate,
        h.padding,
        h.protection_bit,
        h.mode,
        h.mode_extension,
        &smr_db,
        &mut out,
    );
    show::written(rt, "demand_bits", number, &out)
}

fn allocate_bits(rt: &impl Print, h: Head, banc: u32) -> io::Result<()> {
    let smr_db = ratios();
    let mut steps = [9u32; 64];
    let mut out = [9u32; 4];
    let number = frame::folgrist_allocate_bits(
        h.lsf,
        h.bit_rate,
        h.sample_rate,
        h.padding,
        h.protection_bit,
        h.mode,
        h.mode_extension,
        banc,
        &smr_db,
        &mut steps,
        &mut out,
    );
    show::written(rt, "allocate_bits", number, &steps)?;
    show::written(rt, "allocate_bits, out", number, &out)
}

fn write_side_info(rt: &impl Print, h: Head) -> io::Result<()> {
    let record = Record::sent();
    let mut bytes = [9u8; 174];
    let mut out = [9u32; 1];
    let number = side_information::folgrist_write_side_info(
        h.lsf,
        h.bit_rate,
        h.sample_rate,
        h.padding,
        h.protection_bit,
        h.mode,
        h.mode_extension,
        &record.steps,
        &record.scfsi,
        &record.indices,
        &mut bytes,
        &mut out,
    );
    show::written(rt, "write_side_info", number, &bytes)?;
    show::written(rt, "write_side_info, out", number, &out)?;
    check_record(rt, h, &record)?;
    read_side_info(rt, h, &bytes)
}

// From what was written.
fn read_side_info(rt: &impl Print, h: Head, bytes: &[u8]) -> io::Result<()> {
    let mut steps = [9u32; 64];
    let mut scfsi = [9u8; 64];
    let mut indices = [9u8; 192];
    let mut out = [9u32; 1];
    let number = side_information::folgrist_read_side_info(
        h.lsf,
        h.bit_rate,
        h.sample_rate,
        h.padding,
        h.protection_bit,
        h.mode,
        h.mode_extension,
        bytes,
        &mut steps,
        &mut scfsi,
        &mut indices,
        &mut out,
    );
    show::written(rt, "read_side_info, steps", number, &steps)?;
    show::written(rt, "read_side_info, scfsi", number, &scfsi)?;
    show::written(rt, "read_side_info, indices", number, &indices)?;
    show::written(rt, "read_side_info, out", number, &out)?;
    ask_again(
        rt,
        h,
        Record {
            steps,
            scfsi,
            indices,
        },
    )
}

// What is read is written in its one form, with other scfsi, which gives the same bytes; and it is checked, and again with steps in
// subband 28: joint stereo shares it, the single channel does not carry it, and that of LSF does.
fn ask_again(rt: &impl Print, h: Head, read: Record) -> io::Result<()> {
    let other_scfsi = Record {
        scfsi: [0; 64],
        ..read
    };
    write_side_info_canonical(rt, h, &other_scfsi)?;
    check_record(rt, h, &read)?;
    let mut with_steps = read;
    with_steps.steps[28] = 3;
    check_record(rt, h, &with_steps)
}

fn write_side_info_canonical(rt: &impl Print, h: Head, record: &Record) -> io::Result<()> {
    let mut bytes = [9u8; 174];
    let mut out = [9u32; 1];
    let number = side_information::folgrist_write_side_info_canonical(
        h.lsf,
        h.bit_rate,
        h.sample_rate,
        h.padding,
        h.protection_bit,
        h.mode,
        h.mode_extension,
        &record.steps,
        &record.scfsi,
        &record.indices,
        &mut bytes,
        &mut out,
    );
    show::written(rt, "write_side_info_canonical", number, &bytes)?;
    show::written(rt, "write_side_info_canonical, out", number, &out)
}

fn check_record(rt: &impl Print, h: Head, record: &Record) -> io::Result<()> {
    let mut out = [9u32; 2];
    let number = side_information::folgrist_check_record(
        h.lsf,
        h.bit_rate,
        h.sample_rate,
        h.padding,
        h.protection_bit,
        h.mode,
        h.mode_extension,
        &record.steps,
        &record.scfsi,
        &record.indices,
        &mut out,
    );
    show::written(rt, "check_record", number, &out)
}

// From 30 dB down by three quarters of one from slot to slot.
fn ratios() -> [f64; 64] {
    let mut by_slot = [0.0; 64];
    let mut db = 30.0;
    for ratio in by_slot.iter_mut() {
        *ratio = db;
        db -= 0.75;
    }
    by_slot
}
