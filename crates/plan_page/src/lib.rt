// The planner's page: whether a frame carries a signal, as lines of text.
#![tactic(auto)]

mod accepted;
mod page;
mod rows;

pub use page::page_line;
