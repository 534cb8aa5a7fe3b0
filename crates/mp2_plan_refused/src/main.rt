// The planner, run on a frame that no allocation table covers. A program of its own, since a program is run on one command line and one input.
#![tactic(auto)]

use std::io;

fn main(rt: HostRuntime) -> io::Result<()> {
    let mut outcome = Ok(());
    plan_io::run(&rt, &mut outcome);
    outcome
}
