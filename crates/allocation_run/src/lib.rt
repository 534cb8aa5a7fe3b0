// The rounds of the bit allocation over the fields of a frame (ISO/IEC 11172-3 C.1.5.2.7): the tables that they read, where they end, and the
// steps that the slots then have.
#![tactic(auto)]

ghost use Rattle.std.specs.Prelude.{◌≡◌, ◌+◌, ◌<◌, length};
ghost use Rattle.layout.specs.Layout.{fields_of};
ghost use Rattle.layout.specs.Slots.{channel_in, subband_in};
ghost use Rattle.encoder_bit_demand.specs.Demand.{smrs_of};
ghost use Rattle.allocation_run.specs.Entries.{slot_mnr, mnr_of, ChargeIs};
ghost use Rattle.allocation_run.specs.Steps.{steps_held, steps_of, run_of};
ghost use Rattle.allocation_run.specs.Laid.{Filled};

use allocation_rounds::{Run, Tables};
use layout::{AllocationField, Layout};

// A slot's mask-to-noise ratio with these steps.
pub fn slot_mnr(nb_steps: u32, smr: f64) -> f64
    ensures { result ≡ slot_mnr nb_steps smr }
{
    if nb_steps == 0 {
        return -smr;
    }
    encoder_bit_demand::snr_db(nb_steps).map_or(f64::NAN, |db| db - smr)
}

// A field's mask-to-noise ratio with these steps: the smaller of its channels'.
fn field_mnr(smr_db: &[[f64; 32]; 2], field: AllocationField, nb_steps: u32) -> f64
    requires { (field.subband < 32) × (field.channel < 2) }
    ensures { result ≡ mnr_of (smrs_of smr_db.now field) nb_steps }
{
    let sb = field.subband;
    if field.both {
        let first = slot_mnr(nb_steps, smr_db[0][sb]);
        let second = slot_mnr(nb_steps, smr_db[1][sb]);
        ieee_order::min(first, second)
    } else {
        let ch = field.channel;
        slot_mnr(nb_steps, smr_db[ch][sb])
    }
}

// The bits charged for a field with these steps: its samples once, and what its first step costs besides.
pub fn charge(nb_steps: u32, first_step: u32) -> u64
    ensures { ChargeIs nb_steps first_step result }
{
    if nb_steps == 0 {
        return 0;
    }
    u64::from(quantization::sample_bits_for(nb_steps)) + u64::from(first_step)
}

// What the tables have of one field: its top place, the last of its row; and the ratios and charges at the places of the row.
fn lay_field(
    layout: Layout,
    smr_db: &[[f64; 32]; 2],
    costs: &[u16; 64],
    number: usize,
    tables: &mut Tables,
)
    requires { (number < length (fields_of layout)) × (number < 64) × Filled layout smr_db.now costs.now number tables.old }
    ensures { Filled layout smr_db.now costs.now (number + 1) tables.new }
{
    let table = layout.table;
    let field = layout.field(number);
    let first_step = u32::from(costs[number]);
    let row = table.row(field.subband);
    let places = table.places(field.subband);
    tables.tops[number] = places.saturating_sub(1) as u8;
    let start = 16 * number;
    for p in 0..places {
        let nb_steps = row[p];
        tables.mnrs[start + p] = field_mnr(smr_db, field, nb_steps);
        tables.charges[start + p] = charge(nb_steps, first_step) as u32;
    }
}

// The steps of a slot: those at the place of the field that serves it, and 0 where none does.
fn steps_at(layout: Layout, places: &[u8; 64], slot: usize) -> u32
    requires { slot < 64 }
    ensures { result ≡ steps_held layout places.now (channel_in slot) (subband_in slot) }
{
    let table = layout.table;
    let sb = slot % 32;
    let serving = layout.field_serving(slot / 32, sb);
    let Some(field) = serving else {
        return 0;
    };
    let place = places[field as usize] as usize;
    let row = table.row(sb);
    if place < 16 { row[place] } else { 0 }
}

// The steps of every slot, from the places that the fields reach.
pub fn steps_held(layout: Layout, places: [u8; 64]) -> [u32; 64]
    ensures { result ≡ steps_of layout places }
{
    let mut steps = [0u32; 64];
    for slot in 0..64 {
        steps[slot] = steps_at(layout, &places, slot);
    }
    steps
}

// Where the rounds end that have these bits, with these signal-to-mask ratios and first steps' costs.
pub fn run_of(layout: Layout, smr_db: &[[f64; 32]; 2], costs: [u16; 64], offered: u32) -> Run
    ensures { result ≡ run_of layout smr_db.now costs offered }
{
    let fields = layout.fields();
    let mut tables = Tables {
        fields,
        tops: [0; 64],
        mnrs: [0.0; 1024],
        charges: [0; 1024],
    };
    for f in 0..fields {
        lay_field(layout, smr_db, &costs, f, &mut tables);
    }
    let run = Run::start(offered);
    run.finish(&tables)
}
