// Replays answers of another implementation, which it reads from standard input, one to a line: calls the library with
// the same arguments, compares, and prints for each kind how many lines agreed. A line is numbers with a space between
// them: the kind, the arguments, the expected answers. A line that begins with # is a comment.
#![tactic(auto)]

mod answers;
mod arguments;
mod budget_kinds;
mod kinds;
mod lines;
mod sample_kinds;
mod scalefactor_kinds;
mod side_info_kinds;
mod table_kinds;
mod tally;

use lines::{Ended, Line};
use std::io;
use std::io::Read;
use tally::Tally;

fn main(rt: HostRuntime) -> io::Result<()> {
    let mut line = Line::first();
    let mut tally = Tally::new();
    read_all(&mut rt.reader(), &mut line, &mut tally);
    tally.print(&rt)
}

// A proved loop has to end, and nothing says that the input does: so there are no more turns than a number that no run
// uses up. Where a read fails, the line counts as one that could not be read.
// Kept: `read` says how much of the buffer it filled; std's `lines` allocate, and its `bytes` ask for the input byte by byte.
fn read_all(from: &mut impl Read, line: &mut Line, tally: &mut Tally) {
    let mut buffer = [0; 65_536];
    for _ in 0..u64::MAX {
        match from.read(&mut buffer) {
            Ok(0) => break,
            Ok(n) => feed(&buffer[..n], line, tally),
            Err(_) => {
                line.spoil();
                break;
            }
        }
    }
    end_line(line, tally);
}

// Feeds bytes to the line reader.
fn feed(bytes: &[u8], line: &mut Line, tally: &mut Tally) {
    for byte in bytes {
        if *byte == b'\n' {
            end_line(line, tally);
            line.begin_next();
        } else {
            line.feed(*byte);
        }
    }
}

// Replays a line that has ended, and counts it.
fn end_line(line: &mut Line, tally: &mut Tally) {
    let number = line.number;
    match line.end() {
        Ended::Skipped => {}
        Ended::Numbers(numbers) => tally.count(number, kinds::replay(numbers)),
        Ended::Malformed => tally.count(number, None),
    }
}
