// The bit allocation of ISO/IEC 11172-3 C.1.5.2.7: how many steps each slot of a frame gets.
#![tactic(auto)]

ghost use Rattle.std.specs.Prelude.{◌≡◌, ◌≤◌, Ok};
ghost use Rattle.encoder_bit_budget.specs.Budget.{plain, fixed_in};
ghost use Rattle.encoder_bit_allocator.specs.Allocation.{answer_in, accepted, AllocationIs};
ghost use Rattle.encoder_bit_allocator.specs.OnTheWay.{CostsAre, allocation_under};

use audio_data::AudioData;
use encoder_bit_budget::{BitAllocError, FixedBitBudget, Request};
use header::FrameHeader;
use layout::Layout;

// An allocation: the record with the steps, and the bits left.
#[derive(Clone, Copy)]
pub struct Allocation {
    pub audio: AudioData,
    pub left: u32,
}

// What the first step of each field costs besides its samples, in the worst case.
fn worst_case(layout: Layout) -> [u16; 64]
    ensures { CostsAre layout result }
{
    let fields = layout.fields();
    let mut costs = [0; 64];
    for f in 0..fields {
        costs[f] = encoder_bit_demand::first_step_bits(layout.field(f)) as u16;
    }
    costs
}

// The allocation of the bits offered.
fn accepted(layout: Layout, smr_db: &[[f64; 32]; 2], costs: [u16; 64], offered: u32) -> Allocation
    ensures { answer_in (Ok result) ≡ accepted layout smr_db.now costs offered }
{
    let run = allocation_run::run_of(layout, smr_db, costs, offered);
    let mut audio = AudioData::new(layout);
    audio.nb_steps = allocation_run::steps_held(layout, run.places);
    Allocation {
        audio,
        left: run.left,
    }
}

// What every allocation does with its request.
fn allocate(request: Request, smr_db: [[f64; 32]; 2]) -> Result<Allocation, BitAllocError>
    ensures { AllocationIs request smr_db (answer_in result) }
{
    let budget = request.budget()?;
    allocate_under(budget, &smr_db, request.banc)
}

// The same under an accepted budget: the bits are asked, and what they leave is offered to the fields.
fn allocate_under(
    b: FixedBitBudget,
    smr_db: &[[f64; 32]; 2],
    banc: u32,
) -> Result<Allocation, BitAllocError>
    requires { fixed_in b ≤ 236 }
    ensures { answer_in result ≡ allocation_under b smr_db.now banc }
{
    let fixed = b.fixed();
    let spent = fixed + u64::from(banc);
    if spent <= u64::from(b.cb) {
        let layout = b.layout();
        let costs = worst_case(layout);
        Ok(accepted(layout, smr_db, costs, b.cb - (spent as u32)))
    } else {
        Err(BitAllocError::InsufficientFrameSize {
            cb: b.cb,
            fixed: fixed as u32,
            banc,
        })
    }
}

// The steps of each slot, from the signal-to-mask ratios, `banc` ancillary bits set aside.
pub fn allocate_bits(
    header: FrameHeader,
    smr_db: [[f64; 32]; 2],
    banc: u32,
) -> Result<Allocation, BitAllocError>
    ensures { AllocationIs (plain header banc) smr_db (answer_in result) }
{
    allocate(Request { header, banc }, smr_db)
}
