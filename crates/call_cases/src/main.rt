// Calls that no line of the text program reaches: whole messages, events by number and the blink-start question. A line for each;
// bytes are in hexadecimal, codes, values and counts in decimal.
#![tactic(auto)]

mod events;
mod messages;
mod starts;

use std::io;

fn run(rt: &impl Print) -> io::Result<()> {
    messages::run(rt)?;
    events::run(rt)?;
    starts::run(rt)
}

// A write that fails ends the run, and the status stays 0.
fn main(rt: HostRuntime) {
    let _ = run(&rt);
}
