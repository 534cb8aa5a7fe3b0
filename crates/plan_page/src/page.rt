// The page that answers a request, line by line.
ghost use Rattle.std.specs.Prelude.{◌≡◌};
ghost use Rattle.encoder_bit_budget.specs.Budget.{offered_in, natural};
ghost use Rattle.text_line.specs.Page.{LineAt};
ghost use Rattle.plan_page.specs.Page.{page_of};
ghost use Rattle.plan_page.specs.Shown.{page_in};

use crate::accepted::Accepted;
use encoder_bit_budget::{BitAllocError, FixedBitBudget, Request};
use header::FrameHeader;
use text_line::Line;

// The line of a number, counted from 0.
pub fn page_line(header: FrameHeader, banc: u32, smr_db: [[f64; 32]; 2], n: usize) -> Option<Line>
    ensures { LineAt (page_of header banc smr_db) n result }
{
    match parts(header, banc, smr_db) {
        Ok(accepted) => accepted.line(n),
        Err(error) => text_line::only(plan_lines::refusal_line(header, error), n),
    }
}

// What the page shows, where the request is accepted.
fn parts(header: FrameHeader, banc: u32, smr_db: [[f64; 32]; 2]) -> Result<Accepted, BitAllocError>
    ensures { page_in header result ≡ page_of header banc smr_db }
{
    let allocation = encoder_bit_allocator::allocate_bits(header, smr_db, banc)?;
    let request = Request { header, banc };
    let budget = request.budget()?;
    let demand = encoder_bit_demand::demand_bits(header, smr_db)?;
    let audio = allocation.audio;
    let steps = audio.nb_steps;
    Ok(Accepted {
        budget,
        offered: offered_bits(budget, banc),
        demand,
        steps,
        left: allocation.left as u64,
        smr_db,
    })
}

// The bits offered: what is left of the frame beside the fixed and the ancillary bits.
fn offered_bits(b: FixedBitBudget, banc: u32) -> u64
    ensures { result ≡ natural (offered_in b banc) }
{
    u64::from(b.cb).saturating_sub(b.fixed() + u64::from(banc))
}
