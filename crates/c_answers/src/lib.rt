// How a call from C is answered: what its arguments mean, by which number it is refused, the parts of the answers that it takes, and how they are written.
#![tactic(auto)]

pub mod arguments;
pub mod parts;
pub mod refusal;
pub mod writing;
