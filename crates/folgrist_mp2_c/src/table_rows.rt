// The functions of an allocation table, and of a number of steps alone.
ghost use Rattle.std.specs.Prelude.{◌||◌, ltb, length};
ghost use Rattle.std.specs.Prelude.{Some};
ghost use Rattle.quantization.specs.Classes.{SampleBitsAre};
ghost use Rattle.c_answers.specs.Answers.{asked, answered, Answers};
ghost use Rattle.c_answers.specs.Arguments.{table_meant};
ghost use Rattle.c_answers.specs.Replies.{limits_at, steps_found, index_found, coefficients, class_figures, snr_found};

// How many subbands a table carries, and the bits of a subband's allocation field.
// Kept: here and below: C needs each name, and takes numbers and slices by position, in the order of include/folgrist_mp2.h.
#[unsafe(no_mangle)]
pub extern "C" fn folgrist_table_limits(table: u8, sb: u64, out: &mut [u32]) -> u32
    ensures { Answers
        (answered
        (table_meant (ltb (length out.old) 2) table)
        (limits_at sb))
        out.old result out.new }
{
    folgrist_mp2::table_rows::folgrist_table_limits(table, sb, out)
}

// The steps at a place of a subband's row.
#[unsafe(no_mangle)]
pub extern "C" fn folgrist_nb_steps(table: u8, sb: u64, index: u32, out: &mut [u32]) -> u32
    ensures { Answers
        (answered
        (table_meant (ltb (length out.old) 1) table)
        (steps_found sb index))
        out.old result out.new }
{
    folgrist_mp2::table_rows::folgrist_nb_steps(table, sb, index, out)
}

// The place of a subband's row that has these steps.
#[unsafe(no_mangle)]
pub extern "C" fn folgrist_allocation_index(table: u8, sb: u64, steps: u32, out: &mut [u32]) -> u32
    ensures { Answers
        (answered
        (table_meant (ltb (length out.old) 1) table)
        (index_found sb steps))
        out.old result out.new }
{
    folgrist_mp2::table_rows::folgrist_allocation_index(table, sb, steps, out)
}

// The class of quantization of a number of steps.
#[unsafe(no_mangle)]
pub extern "C" fn folgrist_class_of_quantization(steps: u32, cd: &mut [f64], out: &mut [u32]) -> u32
    ensures cd_written { Answers
        (answered
        (asked (ltb (length cd.old) 2 || ltb (length out.old) 4) (Some steps))
        coefficients)
        cd.old result cd.new }
    ensures out_written { Answers
        (answered
        (asked (ltb (length cd.old) 2 || ltb (length out.old) 4) (Some steps))
        class_figures)
        out.old result out.new }
{
    folgrist_mp2::table_rows::folgrist_class_of_quantization(steps, cd, out)
}

// The bits of a subband's 36 samples.
#[unsafe(no_mangle)]
pub extern "C" fn folgrist_sample_bits_for(steps: u32) -> u32
    ensures { SampleBitsAre steps result }
{
    folgrist_mp2::table_rows::folgrist_sample_bits_for(steps)
}

// The signal-to-noise ratio of a number of steps.
#[unsafe(no_mangle)]
pub extern "C" fn folgrist_snr_db(steps: u32, out: &mut [f64]) -> u32
    ensures { Answers
        (answered
        (asked (ltb (length out.old) 1) (Some steps))
        snr_found)
        out.old result out.new }
{
    folgrist_mp2::table_rows::folgrist_snr_db(steps, out)
}
