// Worked lines: calls the library with arguments whose answers were found by hand, and prints what is asked and what is
// answered. An answer that is not the one found by hand has a remark behind it.
#![tactic(auto)]

mod budgets;
mod codes;
mod show;

use std::io;

fn main(rt: HostRuntime) -> io::Result<()> {
    budgets::accepted(&rt)?;
    budgets::refused(&rt)?;
    budgets::demands(&rt)?;
    codes::scalefactors(&rt)?;
    codes::scfsi(&rt)?;
    codes::samples(&rt)
}
