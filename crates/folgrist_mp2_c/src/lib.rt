// The exports of the C library. Each has the contract of the function of the same name in `folgrist_mp2`, which it calls: a crate is a library or
// a static library, and Rattle's callers take the library.
#![tactic(auto)]

pub mod frame;
pub mod samples;
pub mod scalefactors;
pub mod side_information;
pub mod table_rows;
pub mod version;
