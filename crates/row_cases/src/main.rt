// The calls on lent records, a line for each: what is handed in, and what comes back. Control bytes are in hexadecimal.
#![tactic(auto)]

mod records;
mod row_totals;
mod rows;
mod wait_totals;
mod waits;

use std::io;

fn run(rt: &impl Print) -> io::Result<()> {
    waits::run(rt)?;
    wait_totals::run(rt)?;
    rows::run(rt)?;
    row_totals::run(rt)
}

// A write that fails ends the run, and the status stays 0.
fn main(rt: HostRuntime) {
    let _ = run(&rt);
}
