// Records as a caller can hand them in, in each stage of a message and with bits that no write sets, a line for each. Bytes are in
// hexadecimal, codes in decimal.
#![tactic(auto)]

mod records;
mod stages;

use std::io;

fn run(rt: &impl Print) -> io::Result<()> {
    stages::run(rt)?;
    records::run(rt)
}

// A write that fails ends the run, and the status stays 0.
fn main(rt: HostRuntime) {
    let _ = run(&rt);
}
