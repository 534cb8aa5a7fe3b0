// The same, run on a frame that is cut off within its scalefactors. A program of its own, since a program is run on one command line and one input.
#![tactic(auto)]

use std::io;

fn main(rt: HostRuntime) -> io::Result<()> {
    let mut outcome = Ok(());
    side_io::run(&rt, &mut outcome);
    outcome
}
