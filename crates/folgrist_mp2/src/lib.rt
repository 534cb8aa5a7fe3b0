// The C library: the entries of the other crates as functions of numbers and slices, under the same definitions. The modules have the
// functions by subject, under the names by which `folgrist_mp2_c` exports them. A body is one call, mostly of the function of the same name in `c_frame` (with a
// header), `c_side_info` and `c_side_info_read` (with a record besides) or `c_subband` (without either), which has the same contract and does the work: it gives a
// number or a refusal, and `number_of` the number of either. Nothing is asked, told apart or written here.
#![tactic(auto)]

pub mod frame;
pub mod samples;
pub mod scalefactors;
pub mod side_information;
pub mod table_rows;
pub mod version;
