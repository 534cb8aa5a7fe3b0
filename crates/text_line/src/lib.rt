// A line of text, built from the left: texts, numbers, decibels to the hundredth, and columns that are aligned to the right.
// A line holds 256 bytes; what is beyond them is cut off. Of a page, which is a list of lines, any line can be asked for.
#![tactic(auto)]

mod decibels;
mod line;
mod page;

pub use line::{EndedLine, Line, Text};
pub use page::only;
