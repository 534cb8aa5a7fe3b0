// The functions of a header: the table that it selects, the bits of its frame, what they offer and what the ratios demand, and the allocation.
ghost use Rattle.std.specs.Prelude.{◌||◌, ltb, length};
ghost use Rattle.c_answers.specs.Answers.{answered, Answers};
ghost use Rattle.c_answers.specs.Arguments.{header_meant};
ghost use Rattle.c_answers.specs.Replies.{table_selected, frame_sized};
ghost use Rattle.c_answers.specs.Replies.{budget_fixed, bits_available, bits_demanded, steps_allocated, bits_allocated};

// The allocation table that a header selects.
// Kept: here and below: C needs each name, and takes numbers and slices by position, in the order of include/folgrist_mp2.h.
#[unsafe(no_mangle)]
pub extern "C" fn folgrist_select_table(
    lsf: u8,
    bit_rate: u32,
    sample_rate: u32,
    padding: u8,
    protection_bit: u8,
    mode: u8,
    mode_extension: u8,
    out: &mut [u32],
) -> u32
    ensures { Answers
        (answered
        (header_meant (ltb (length out.old) 1)
        lsf bit_rate sample_rate padding protection_bit mode mode_extension)
        table_selected)
        out.old result out.new }
{
    folgrist_mp2::frame::folgrist_select_table(
        lsf,
        bit_rate,
        sample_rate,
        padding,
        protection_bit,
        mode,
        mode_extension,
        out,
    )
}

// The length of the frame in bytes.
#[unsafe(no_mangle)]
pub extern "C" fn folgrist_frame_size_bytes(
    lsf: u8,
    bit_rate: u32,
    sample_rate: u32,
    padding: u8,
    protection_bit: u8,
    mode: u8,
    mode_extension: u8,
    out: &mut [u64],
) -> u32
    ensures { Answers
        (answered
        (header_meant (ltb (length out.old) 1)
        lsf bit_rate sample_rate padding protection_bit mode mode_extension)
        frame_sized)
        out.old result out.new }
{
    folgrist_mp2::frame::folgrist_frame_size_bytes(
        lsf,
        bit_rate,
        sample_rate,
        padding,
        protection_bit,
        mode,
        mode_extension,
        out,
    )
}

// The bits that are fixed for the frame.
#[unsafe(no_mangle)]
pub extern "C" fn folgrist_fixed_bit_budget(
    lsf: u8,
    bit_rate: u32,
    sample_rate: u32,
    padding: u8,
    protection_bit: u8,
    mode: u8,
    mode_extension: u8,
    out: &mut [u32],
) -> u32
    ensures { Answers
        (answered
        (header_meant (ltb (length out.old) 8)
        lsf bit_rate sample_rate padding protection_bit mode mode_extension)
        budget_fixed)
        out.old result out.new }
{
    folgrist_mp2::frame::folgrist_fixed_bit_budget(
        lsf,
        bit_rate,
        sample_rate,
        padding,
        protection_bit,
        mode,
        mode_extension,
        out,
    )
}

// The bits that the frame offers beside `banc` ancillary bits.
#[unsafe(no_mangle)]
pub extern "C" fn folgrist_available_data_bits(
    lsf: u8,
    bit_rate: u32,
    sample_rate: u32,
    padding: u8,
    protection_bit: u8,
    mode: u8,
    mode_extension: u8,
    banc: u32,
    out: &mut [i64],
) -> u32
    ensures { Answers
        (answered
        (header_meant (ltb (length out.old) 1)
        lsf bit_rate sample_rate padding protection_bit mode mode_extension)
        (bits_available banc))
        out.old result out.new }
{
    folgrist_mp2::frame::folgrist_available_data_bits(
        lsf,
        bit_rate,
        sample_rate,
        padding,
        protection_bit,
        mode,
        mode_extension,
        banc,
        out,
    )
}

// The bits that the signal-to-mask ratios demand.
#[unsafe(no_mangle)]
pub extern "C" fn folgrist_demand_bits(
    lsf: u8,
    bit_rate: u32,
    sample_rate: u32,
    padding: u8,
    protection_bit: u8,
    mode: u8,
    mode_extension: u8,
    smr_db: &[f64],
    out: &mut [u64],
) -> u32
    ensures { Answers
        (answered
        (header_meant (ltb (length smr_db.now) 64 || ltb (length out.old) 1)
        lsf bit_rate sample_rate padding protection_bit mode mode_extension)
        (bits_demanded smr_db.now))
        out.old result out.new }
{
    folgrist_mp2::frame::folgrist_demand_bits(
        lsf,
        bit_rate,
        sample_rate,
        padding,
        protection_bit,
        mode,
        mode_extension,
        smr_db,
        out,
    )
}

// The steps of each slot, and the bits left.
#[unsafe(no_mangle)]
pub extern "C" fn folgrist_allocate_bits(
    lsf: u8,
    bit_rate: u32,
    sample_rate: u32,
    padding: u8,
    protection_bit: u8,
    mode: u8,
    mode_extension: u8,
    banc: u32,
    smr_db: &[f64],
    steps: &mut [u32],
    out: &mut [u32],
) -> u32
    ensures steps_written { Answers
        (answered
        (header_meant (ltb (length smr_db.now) 64 || (ltb (length steps.old) 64 || ltb (length out.old) 4))
        lsf bit_rate sample_rate padding protection_bit mode mode_extension)
        (steps_allocated smr_db.now banc))
        steps.old result steps.new }
    ensures out_written { Answers
        (answered
        (header_meant (ltb (length smr_db.now) 64 || (ltb (length steps.old) 64 || ltb (length out.old) 4))
        lsf bit_rate sample_rate padding protection_bit mode mode_extension)
        (bits_allocated smr_db.now banc))
        out.old result out.new }
{
    folgrist_mp2::frame::folgrist_allocate_bits(
        lsf,
        bit_rate,
        sample_rate,
        padding,
        protection_bit,
        mode,
        mode_extension,
        banc,
        smr_db,
        steps,
        out,
    )
}
