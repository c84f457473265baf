// Buses and records as a caller can hand them in, with the code of every call, a line for each. Bytes are in hexadecimal, codes and
// counts in decimal.
#![tactic(auto)]

mod buses;
mod codes;
mod handed;
mod sums;

use std::io;

fn run(rt: &impl Print) -> io::Result<()> {
    buses::run(rt)?;
    sums::run(rt)
}

// A write that fails ends the run, and the status stays 0.
fn main(rt: HostRuntime) {
    let _ = run(&rt);
}
