// The functions of the C library that take no header: what a table says of a subband, its class of quantization, codewords and scalefactors.
// The function of the same name in `folgrist_mp2` hands over its arguments under the same contract; here the slices' lengths are asked about first (98), then
// whether a number means a table (14), then what the function itself asks.
#![tactic(auto)]

pub mod samples;
pub mod scalefactors;
pub mod table_rows;
