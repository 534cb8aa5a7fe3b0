// What the page of an accepted request is made of, and its lines.
ghost use Rattle.std.specs.Prelude.{◌≤◌};
ghost use Rattle.text_line.specs.Page.{LineAt};
ghost use Rattle.plan_page.specs.Page.{head_of, foot_of, accepted_page};

use crate::rows;
use encoder_bit_budget::FixedBitBudget;
use plan_lines::Label;
use text_line::Line;

// What the page of an accepted request shows.
// Kept: the steps are by slot and the ratios by channel and subband, as the allocation takes and gives them, so no one array holds both; `left` is bits, no length.
#[derive(Clone, Copy)]
pub struct Accepted {
    pub budget: FixedBitBudget,
    pub offered: u64,
    pub demand: u64,
    pub steps: [u32; 64],
    pub left: u64,
    pub smr_db: [[f64; 32]; 2],
    pub ghost few: { budget.sblimit ≤ 30 },
}

impl Accepted {
    // A line of the page.
    pub fn line(&self, n: usize) -> Option<Line>
        ensures { LineAt (accepted_page self.now.budget self.now.offered self.now.demand self.now.steps self.now.left self.now.smr_db) n result }
    {
        let sblimit = self.budget.sblimit;
        if n < 6 {
            self.head_line(n)
        } else if n - 6 < sblimit {
            let layout = self.budget.layout();
            Some(rows::subband_line(layout, self.steps, self.smr_db, n - 6))
        } else {
            self.foot_line(n - 6 - sblimit)
        }
    }

    // A line above the rows.
    // Kept: each place's line is made where it is asked for; an array of the six would make all of them for each line of the page.
    fn head_line(&self, n: usize) -> Option<Line>
        ensures { LineAt (head_of self.now.budget self.now.offered self.now.demand) n result }
    {
        match n {
            0 => Some(plan_lines::frame_line(self.budget)),
            1 => Some(plan_lines::bits_line(Label::Fixed, self.budget.fixed())),
            2 => Some(plan_lines::bits_line(Label::Offered, self.offered)),
            3 => Some(plan_lines::demand_line(self.demand, self.offered)),
            4 => Some(Line::new()),
            5 => Some(rows::heading(self.budget.layout())),
            _ => None,
        }
    }

    // A line below them.
    fn foot_line(&self, n: usize) -> Option<Line>
        ensures { LineAt (foot_of self.now.offered self.now.left) n result }
    {
        match n {
            0 => Some(Line::new()),
            1 => {
                let charged = self.offered.saturating_sub(self.left);
                Some(plan_lines::bits_line(Label::Charged, charged))
            }
            2 => Some(plan_lines::bits_line(Label::Left, self.left)),
            _ => None,
        }
    }
}
