// Calls every function of `folgrist_mp2`, its arguments by position, and prints the number of the answer and what is written. The
// arguments are chosen so that two parameters of one type that change places in a signature change what is printed, wherever such a
// change can change an answer.
#![tactic(auto)]

mod frames;
mod indices;
mod record;
mod rows;
mod show;

use frames::Head;
use std::io;

fn main(rt: HostRuntime) -> io::Result<()> {
    frames::ask(&rt, JOINT, 1_000)?;
    frames::ask(&rt, SINGLE, 2)?;
    frames::ask(&rt, LARGEST, 3)?;
    rows::ask(&rt)?;
    indices::ask(&rt)?;
    version(&rt)
}

// Joint stereo with bound 12, padding and a CRC.
const JOINT: Head = Head {
    lsf: 0,
    bit_rate: 192_000,
    sample_rate: 44_100,
    padding: 1,
    protection_bit: 0,
    mode: 1,
    mode_extension: 2,
};

// One channel, neither padding nor CRC.
const SINGLE: Head = Head {
    lsf: 0,
    bit_rate: 64_000,
    sample_rate: 48_000,
    padding: 0,
    protection_bit: 1,
    mode: 3,
    mode_extension: 1,
};

// The longest frame that is accepted, but for padding.
const LARGEST: Head = Head {
    lsf: 1,
    bit_rate: 160_000,
    sample_rate: 1,
    padding: 0,
    protection_bit: 1,
    mode: 3,
    mode_extension: 2,
};

fn version(rt: &impl Print) -> io::Result<()> {
    show::returned(rt, "version", folgrist_mp2::version::folgrist_version())
}
