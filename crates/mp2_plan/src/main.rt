// The planner: does this frame carry this signal? The words of the command line give the frame, standard input the signal-to-mask
// ratios; the answer goes to standard output.
#![tactic(auto)]

use std::io;

fn main(rt: HostRuntime) -> io::Result<()> {
    let mut outcome = Ok(());
    plan_io::run(&rt, &mut outcome);
    outcome
}
