// Lines of headers: their tables and the bits of their frames, and what ratios demand.
use crate::show;
use header::{FrameHeader, Mode, ModeExtension};
use std::io;

// A header without CRC and padding.
fn frame(lsf: bool, sample_rate: u32, bit_rate: u32, mode: Mode) -> FrameHeader {
    FrameHeader {
        lsf,
        bit_rate,
        sample_rate,
        padding: false,
        mode,
        mode_extension: ModeExtension::Bound4,
        protection_bit: true,
    }
}

pub fn accepted(rt: &impl Print) -> io::Result<()> {
    println!(rt;
        "no CRC, no padding: answer, table (1 to 5: B2a, B2b, B2c, B2d, B1Lsf), bytes, fixed bits, bits offered"
    )?;
    let stereo = answers(frame(false, 44_100, 192_000, Mode::Stereo));
    show::numbers(
        rt,
        "44100 Hz, stereo, 192000 bit/s:",
        &[0, 2, 626, 220, 4788],
        &stereo,
    )?;
    let joint = answers(frame(false, 44_100, 192_000, Mode::JointStereo));
    show::numbers(
        rt,
        "in joint stereo with bound 4:",
        &[0, 2, 626, 142, 4866],
        &joint,
    )?;
    let mono = answers(frame(false, 48_000, 64_000, Mode::SingleChannel));
    show::numbers(
        rt,
        "48000 Hz, single channel, 64000 bit/s:",
        &[0, 1, 192, 120, 1416],
        &mono,
    )
}

pub fn refused(rt: &impl Print) -> io::Result<()> {
    let rounded = answers(frame(false, 48_000, 64_999, Mode::SingleChannel));
    show::numbers(rt, "64999 bit/s:", &[16, 1, 194, 0, 0], &rounded)?;
    let odd = answers(frame(false, 44_100, 193_000, Mode::Stereo));
    show::numbers(
        rt,
        "44100 Hz, stereo, 193000 bit/s:",
        &[16, 0, 630, 0, 0],
        &odd,
    )?;
    let high = answers(frame(false, 44_100, 384_000, Mode::SingleChannel));
    show::numbers(
        rt,
        "44100 Hz, single channel, 384000 bit/s:",
        &[1, 0, 1253, 0, 0],
        &high,
    )?;
    let lsf = answers(frame(true, 0, 32_000, Mode::SingleChannel));
    show::numbers(
        rt,
        "0 Hz, single channel, 32000 bit/s, LSF:",
        &[2, 5, 0, 0, 0],
        &lsf,
    )?;
    let no_rate = answers(frame(false, 0, 32_000, Mode::SingleChannel));
    show::numbers(rt, "without LSF:", &[1, 0, 0, 0, 0], &no_rate)
}

// The answer's number, the table's from 1 on, the bytes of the frame, its fixed bits and the bits offered beside no ancillary ones,
// 0 where they are below 0.
fn answers(header: FrameHeader) -> [u64; 5] {
    let table = table_selection::select_table(header);
    let (number, fixed) = match encoder_bit_budget::fixed_bit_budget(header) {
        Ok(budget) => (0, budget.fixed()),
        Err(error) => (error.number(), 0),
    };
    let available = encoder_bit_budget::available_data_bits(header, 0);
    [
        u64::from(number),
        table.map_or(0, |table| 1 + u64::from(table.number())),
        header.frame_size_bytes().unwrap_or(0),
        fixed,
        u64::try_from(available.unwrap_or(0)).unwrap_or(0),
    ]
}

pub fn demands(rt: &impl Print) -> io::Result<()> {
    let answered = [0.0, 7.0, 7.5].map(demand);
    show::numbers(
        rt,
        "demand on B2c, the first subband at 0.0, 7.0 and 7.5 dB:",
        &[0, 80, 104],
        &answered,
    )
}

// The demand of a frame with table B2c whose first subband has the ratio and whose others have 0 dB.
fn demand(smr: f64) -> u64 {
    let header = frame(false, 48_000, 32_000, Mode::SingleChannel);
    let mut first = [0.0; 32];
    first[0] = smr;
    encoder_bit_demand::demand_bits(header, [first, [0.0; 32]]).unwrap_or(0)
}
