// The lines that stand above and below the rows of a page on a frame, and the line of a refusal.
#![tactic(auto)]

mod budget;
mod lines;
mod refusal;

pub use budget::budget_held;
pub use lines::{Label, bits_line, demand_line, frame_line, free_line};
pub use refusal::{numbered_line, refusal_line};
