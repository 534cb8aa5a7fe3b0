// What a table says of a subband, and the class of quantization and the signal-to-noise ratio of a number of steps.
ghost use Rattle.std.specs.Prelude.{◌||◌, ◌≡◌, ◌≤◌, [], ◌∷◌, ltb, length, Some};
ghost use Rattle.c_answers.specs.Answers.{asked, answered, or_nothing, Answers};
ghost use Rattle.c_answers.specs.Arguments.{table_meant};
ghost use Rattle.c_answers.specs.Refusals.{number_in};
ghost use Rattle.c_answers.specs.Replies.{limits_at, steps_found, index_found, coefficients, class_figures, snr_found};

use c_answers::parts::{NO_CLASS, Told};
use c_answers::refusal::{Refusal, room};
use c_answers::{arguments, parts, writing};
use quantization::QuantClass;

// How many subbands a table carries, and the bits of a subband's allocation field.
// Kept: here and below the arguments are those of the C function of the same name, each by itself.
pub fn table_limits(table: u8, sb: u64, out: &mut [u32]) -> Result<u32, Refusal>
    ensures { Answers
        (answered
        (table_meant (ltb (length out.old) 2) table)
        (limits_at sb))
        out.old (number_in result) out.new }
{
    room(out.len(), 2)?;
    let t = arguments::table(table)?;
    writing::put(&parts::limits(t, sb as usize), out);
    Ok(0)
}

// The steps at a place of a subband's row.
// Kept: `nb_steps` and `allocation_index` are two functions of C that differ in what they ask the table; the rest they share is `put_found`.
pub fn nb_steps(table: u8, sb: u64, index: u32, out: &mut [u32]) -> Result<u32, Refusal>
    ensures { Answers
        (answered
        (table_meant (ltb (length out.old) 1) table)
        (steps_found sb index))
        out.old (number_in result) out.new }
{
    room(out.len(), 1)?;
    let t = arguments::table(table)?;
    put_found(t.nb_steps(sb as usize, index), out)
}

// The place of a subband's row that has these steps.
pub fn allocation_index(table: u8, sb: u64, steps: u32, out: &mut [u32]) -> Result<u32, Refusal>
    ensures { Answers
        (answered
        (table_meant (ltb (length out.old) 1) table)
        (index_found sb steps))
        out.old (number_in result) out.new }
{
    room(out.len(), 1)?;
    let t = arguments::table(table)?;
    put_found(t.allocation_index(sb as usize, steps), out)
}

// What is found in a row.
fn put_found(found: Option<u32>, out: &mut [u32]) -> Result<u32, Refusal>
    requires { 1 ≤ length out.old }
    ensures { Answers (or_nothing found) out.old (number_in result) out.new }
{
    out[0] = found.ok_or(Refusal::Nothing)?;
    Ok(0)
}

// The class of quantization of a number of steps.
pub fn class_of_quantization(steps: u32, cd: &mut [f64], out: &mut [u32]) -> Result<u32, Refusal>
    ensures cd_written { Answers
        (answered
        (asked (ltb (length cd.old) 2 || ltb (length out.old) 4) (Some steps))
        coefficients)
        cd.old (number_in result) cd.new }
    ensures out_written { Answers
        (answered
        (asked (ltb (length cd.old) 2 || ltb (length out.old) 4) (Some steps))
        class_figures)
        out.old (number_in result) out.new }
{
    room(cd.len(), 2)?;
    room(out.len(), 4)?;
    let class = quantization::class_of_quantization(steps);
    let coefficients = Told::of_option(class.map(c_and_d), NO_CLASS, [0.0; 2]);
    writing::put(&coefficients.value, cd);
    writing::put(&parts::figures(class), out);
    Ok(coefficients.number)
}

// The coefficients C and D of a class.
fn c_and_d(class: QuantClass) -> [f64; 2]
    ensures { result ≡ class.c ∷ class.d ∷ [] }
{
    [class.c, class.d]
}

// The signal-to-noise ratio of a number of steps.
pub fn snr_db(steps: u32, out: &mut [f64]) -> Result<u32, Refusal>
    ensures { Answers
        (answered
        (asked (ltb (length out.old) 1) (Some steps))
        snr_found)
        out.old (number_in result) out.new }
{
    room(out.len(), 1)?;
    let snr = Told::of_option(encoder_bit_demand::snr_db(steps), NO_CLASS, 0.0);
    out[0] = snr.value;
    Ok(snr.number)
}
