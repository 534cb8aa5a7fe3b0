// The rows, one for each subband that is carried.
ghost use Rattle.std.specs.Prelude.{◌≡◌, ◌++◌, ◌<◌};
ghost use Rattle.layout.specs.Layout.{channel_count};
ghost use Rattle.plan_text.specs.Quoted.{text};
ghost use Rattle.text_line.specs.Line.{text_of, cut};
ghost use Rattle.plan_page.specs.Rows.{joined, column_heads, heading_line, row_start, slot_columns, channel_columns, subband_line};
ghost use Rattle.plan_page.specs.Charged.{BitsInAre, SubbandBitsAre};

use layout::{AllocationField, Layout};
use text_line::Line;

pub fn heading(layout: Layout) -> Line
    ensures { text_of result ≡ heading_line (channel_count layout) }
{
    all_columns(layout).text(b"  bits")
}

// The heading as far as the last channel's columns.
fn all_columns(layout: Layout) -> Line
    ensures { text_of result ≡ cut (text "subband |" ++ joined (λ ch. column_heads) (channel_count layout)) }
{
    let mut line = Line::new().text(b"subband |");
    for _ in 0..layout.channel_count() {
        line = line.text(b"     ratio  steps      left |");
    }
    line
}

pub fn subband_line(layout: Layout, steps: [u32; 64], smr_db: [[f64; 32]; 2], sb: usize) -> Line
    requires { sb < 32 }
    ensures { text_of result ≡ subband_line layout steps smr_db sb }
{
    let bits = subband_bits(layout, &steps, sb);
    channel_columns(layout, &steps, &smr_db, sb).number_in(6, bits)
}

// A row as far as its last channel's columns.
fn channel_columns(layout: Layout, steps: &[u32; 64], smr_db: &[[f64; 32]; 2], sb: usize) -> Line
    requires { sb < 32 }
    ensures { text_of result ≡ cut (row_start sb ++ joined (channel_columns steps.now smr_db.now sb) (channel_count layout)) }
{
    let mut line = row_start(sb);
    for ch in 0..layout.channel_count() {
        line = slot_columns(line, smr_db[ch][sb], steps[32 * ch + sb]);
    }
    line
}

fn row_start(sb: usize) -> Line
    ensures { text_of result ≡ cut (row_start sb) }
{
    Line::new().number_in(7, sb as u64).text(b" |")
}

// A slot's ratio, its steps, and the ratio that they leave.
fn slot_columns(line: Line, smr: f64, nb_steps: u32) -> Line
    ensures { text_of result ≡ cut (text_of line ++ slot_columns smr nb_steps) }
{
    let left = allocation_run::slot_mnr(nb_steps, smr);
    line.decibels_in(10, smr)
        .number_in(7, nb_steps as u64)
        .decibels_in(10, left)
        .text(b" |")
}

// The bits charged for the fields of a subband.
fn subband_bits(layout: Layout, steps: &[u32; 64], sb: usize) -> u64
    ensures { SubbandBitsAre layout steps.now sb result }
{
    let mut bits = 0;
    for f in 0..layout.fields() {
        bits += bits_in(layout.field(f), steps, sb);
    }
    bits
}

// The bits charged for a field, where it is one of the subband's.
fn bits_in(field: AllocationField, steps: &[u32; 64], sb: usize) -> u64
    requires { (field.subband < 30) × (field.channel < 2) }
    ensures { BitsInAre steps.now sb field result }
{
    if field.subband == sb {
        let nb_steps = steps[32 * field.channel + field.subband];
        allocation_run::charge(nb_steps, encoder_bit_demand::first_step_bits(field))
    } else {
        0
    }
}
