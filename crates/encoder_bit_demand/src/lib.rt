// What the signal-to-mask ratios demand of a frame's bits: the signal-to-noise ratios of Table C.5 and the required bit rate of
// ISO/IEC 11172-3 Annex G.1.
#![tactic(auto)]

ghost use Rattle.std.specs.Prelude.{◌≡◌, ◌≤◌, ◌<◌, length};
ghost use Rattle.std.specs.Float.Ieee.{le};
ghost use Rattle.bitalloc.specs.Tables.{sblimit_of};
ghost use Rattle.encoder_bit_demand.specs.Snr.{decibels, row_number, snr_of, snr};
ghost use Rattle.encoder_bit_demand.specs.Demand.{smrs_of, largest_smr, needed_steps, FirstStepIs, DemandIs};
ghost use Rattle.encoder_bit_demand.specs.OnTheWay.{NeededIs, FieldDemandIs, LayoutDemandIs};

use bitalloc::BitAllocTable;
use encoder_bit_budget::{BitAllocError, FixedBitBudget};
use header::FrameHeader;
use layout::{AllocationField, Layout};

// Table C.5: the signal-to-noise ratios in dB, by rising number of steps.
// Kept: a table of its own beside Table 3-B.4, as printed: it has a row for no steps, which is no class, and a class is found by a search, a row here is not.
static SNR_DB: [f64; 18] = [
    0.00, 7.00, 11.00, 16.00, 20.84, 25.28, 31.59, 37.75, 43.84, 49.89, 55.93, 61.96, 67.98, 74.01,
    80.03, 86.05, 92.01, 98.01,
];

// The whole table.
fn snr_table() -> &'static [f64; 18]
    ensures { result.now ≡ decibels }
{
    &SNR_DB
}

// The row of the table that has a number of steps.
// Kept: the demand asks at each place of a row; with a match of all eighteen it was 1.62 times as fast as the Rust, with rows by their digits 1.67 times.
fn snr_row(nb_steps: u32) -> Option<usize>
    ensures { result ≡ row_number nb_steps }
{
    match nb_steps {
        0 => Some(0),
        3 => Some(1),
        5 => Some(2),
        7 => Some(3),
        9 => Some(4),
        15 | 31 | 63 | 127 | 255 | 511 | 1023 | 2047 | 4095 | 8191 | 16383 | 32767 | 65535 => {
            Some((33 - u32::leading_zeros(nb_steps)) as usize)
        }
        _ => None,
    }
}

// The signal-to-noise ratio in dB of a number of steps; no steps have 0 dB.
pub fn snr_db(nb_steps: u32) -> Option<f64>
    ensures { result ≡ snr_of nb_steps }
{
    let row = snr_row(nb_steps)?;
    Some(snr_table()[row])
}

// The data bits with which every allocation field has a mask-to-noise ratio of at least 0 dB or stands at its top place (Annex G.1, required
// bit rate).
pub fn demand_bits(header: FrameHeader, smr_db: [[f64; 32]; 2]) -> Result<u64, BitAllocError>
    ensures { DemandIs header smr_db result }
{
    let budget = encoder_bit_budget::fixed_bit_budget(header)?;
    Ok(layout_demand(budget.layout(), &smr_db))
}

// The demand of all fields of a layout.
fn layout_demand(layout: Layout, smr_db: &[[f64; 32]; 2]) -> u64
    ensures { LayoutDemandIs layout smr_db.now result }
{
    let table = layout.table;
    let fields = layout.fields();
    let mut bits: u64 = 0;
    for f in 0..fields {
        let field = layout.field(f);
        bits += field_demand(table, field, smr_db);
    }
    bits
}

// The demand of a field, which pays its samples once and the first step of each channel that it serves.
// Kept: `bitalloc`'s public `row` hands out sixteen numbers whatever the subband, and `places` says how many of them are its row: they are sliced off here.
fn field_demand(table: BitAllocTable, field: AllocationField, smr_db: &[[f64; 32]; 2]) -> u64
    requires { (field.subband < sblimit_of table) × (field.channel < 2) }
    ensures { FieldDemandIs table smr_db.now field result }
{
    let row = table.row(field.subband);
    let places = table.places(field.subband);
    let smr = field_smr(field, smr_db);
    needed_bits(&row[..places], smr, first_step_bits(field))
}

// The larger of the ratios of the channels that a field serves.
fn field_smr(field: AllocationField, smr_db: &[[f64; 32]; 2]) -> f64
    requires { (field.subband < 32) × (field.channel < 2) }
    ensures { result ≡ largest_smr (smrs_of smr_db.now field) }
{
    let sb = field.subband;
    if field.both {
        ieee_order::max(smr_db[0][sb], smr_db[1][sb])
    } else {
        let ch = field.channel;
        smr_db[ch][sb]
    }
}

// What a field's first step costs besides its samples, in the worst case.
pub fn first_step_bits(field: AllocationField) -> u32
    ensures { FirstStepIs field result }
{
    if field.both {
        2 * FixedBitBudget::FIRST_STEP_BITS
    } else {
        FixedBitBudget::FIRST_STEP_BITS
    }
}

// The demand of a field at a ratio; a ratio of at most 0 dB needs nothing.
fn needed_bits(row: &[u32], smr: f64, first_step: u32) -> u64
    requires { (2 ≤ length row.now) × (first_step ≤ 40) }
    ensures { NeededIs row.now smr first_step result }
{
    if smr <= 0.0 {
        return 0;
    }
    let steps = needed_steps(row, smr);
    u64::from(quantization::sample_bits_for(steps) + first_step)
}

// The steps at the first place above 0 whose signal-to-noise ratio reaches `smr`, or at the top place.
fn needed_steps(row: &[u32], smr: f64) -> u32
    requires { 2 ≤ length row.now }
    ensures { result ≡ needed_steps row.now smr }
{
    let top = row.len() - 1;
    for steps in &row[1..top] {
        if reaches(*steps, smr) {
            return *steps;
        }
    }
    row[top]
}

// Whether the signal-to-noise ratio of a number of steps is at least `smr`.
fn reaches(steps: u32, smr: f64) -> bool
    ensures { result ≡ le smr (snr steps) }
{
    snr_db(steps).is_some_and(|snr| smr <= snr)
}
