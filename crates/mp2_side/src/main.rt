// Shows the side information of a frame: the words of the command line give the frame's header, standard input its bytes from the first allocation bit on,
// in hexadecimal digits; the answer goes to standard output.
#![tactic(auto)]

use std::io;

fn main(rt: HostRuntime) -> io::Result<()> {
    let mut outcome = Ok(());
    side_io::run(&rt, &mut outcome);
    outcome
}
