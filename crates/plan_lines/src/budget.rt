// The budget that a page's first line is made of.
ghost use Rattle.std.specs.Prelude.{◌≡◌};
ghost use Rattle.encoder_bit_budget.specs.Budget.{no_budget};
ghost use Rattle.plan_lines.specs.Held.{BudgetHeld};

use bitalloc::BitAllocTable;
use encoder_bit_budget::{FixedBitBudget, Request};

// The budget of a request, or the filler where it has none.
// Kept: `side_page::page_line` is given a header and what was read apart from each other, so its definition says what a refused header's page shows too.
pub fn budget_held(request: Request) -> FixedBitBudget
    ensures { BudgetHeld request result }
{
    let budget = request.budget();
    match budget {
        Ok(b) => b,
        Err(_) => no_budget(),
    }
}

// What stands beside a refusal.
fn no_budget() -> FixedBitBudget
    ensures { result ≡ no_budget }
{
    FixedBitBudget {
        cb: 0,
        bhdr: 0,
        bcrc: 0,
        bbal: 0,
        sblimit: 0,
        bound: 0,
        channels: 0,
        table: BitAllocTable::B2a,
    }
}
