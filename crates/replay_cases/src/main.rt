// Entries of a recording, a line for each: the time between stamps, the time to drivers and not to blinkers, and buses handed in.
#![tactic(auto)]

use bus::{Bus, Change, Event, Question, SignalEvent};
use cases::line::Answer;
use cases::setup;
use chip::Chip;
use replay::{Clock, Entry, Replayed};
use std::{fmt, io};

const LIMIT: u64 = 1 << 48;

// Code and value, the counts of the first two devices, the number of devices, and the clock.
#[derive(Clone, Copy)]
struct Outcome(Replayed);

impl fmt::Display for Outcome {
    fn fmt<W: fmt::Write>(&self, f: &mut fmt::Formatter<W>) -> fmt::Result {
        let Outcome(Replayed { reply, clock }) = *self;
        let first = bus::device_at(reply.bus, 0).count;
        let second = bus::device_at(reply.bus, 1).count;
        write!(f, "{} first={first} second={second}", Answer::from(reply))?;
        write!(f, " devices={}", reply.bus.count)?;
        match clock {
            Some(at) => write!(f, " clock at {at}"),
            None => write!(f, " clock unset"),
        }
    }
}

fn stamps(rt: &impl Print) -> io::Result<()> {
    for (earlier, later) in [
        (0, 0),
        (3, 7),
        (u32::MAX, 3),
        (u32::MAX, 0),
        (0, u32::MAX),
        (7, 6),
    ] {
        let ticks = replay::elapsed(later, earlier);
        println!(rt; "from {earlier} to {later}: {}", ticks.0)?;
    }
    Ok(())
}

fn replayed(
    rt: &impl Print,
    label: &str,
    bus: Bus,
    clock: Clock,
    at: u32,
    event: Event,
) -> io::Result<()> {
    let outcome = Outcome(replay::step(bus, clock, Some(Entry { at, event })));
    println!(rt; "{label} at {at}: {outcome}")
}

fn pin(rt: &impl Print, label: &str, bus: Bus, clock: Clock, at: u32) -> io::Result<()> {
    let question = Question::Pin(0);
    let event = Event::Ask { dev: 0, question };
    replayed(rt, label, bus, clock, at, event)
}

fn wait(rt: &impl Print, label: &str, bus: Bus, at: u32, dev: u64, ticks: u64) -> io::Result<()> {
    let change = Change::Wait(ticks);
    let event = Event::Change { dev, change };
    replayed(rt, label, bus, Some(1000), at, event)
}

fn clocks(rt: &impl Print) -> io::Result<()> {
    for (label, clock, at) in [
        ("unset", None, 1000),
        ("from 1000", Some(1000), 1000),
        ("from 1000", Some(1000), 1010),
        ("from 1000", Some(1000), 999),
        ("from 4294967290", Some(4294967290), 4),
    ] {
        pin(rt, label, setup::pair(), clock, at)?;
    }
    let none = Outcome(replay::step(setup::pair(), Some(1000), None));
    println!(rt; "no entry: {none}")
}

fn waits(rt: &impl Print) -> io::Result<()> {
    wait(rt, "driver waits 5", setup::pair(), 1010, 0, 5)?;
    wait(rt, "blinker waits 5", setup::pair(), 1010, 1, 5)?;
    wait(rt, "nobody waits 5", setup::pair(), 1010, 2, 5)
}

// Of two drivers one is asleep; a third, added by the line, has none of its time.
fn sleepers(rt: &impl Print) -> io::Result<()> {
    let one = setup::one(9635, 16);
    let asleep = setup::added(setup::set(one, 16, 0x00, 0x01), 9634, 17);
    let added = Event::Add {
        chip: 9634,
        addr: 17,
    };
    pin(rt, "one asleep", asleep, Some(1000), 1010)?;
    replayed(rt, "one added", one, Some(1000), 1010, added)
}

fn limits(rt: &impl Print) -> io::Result<()> {
    let bus = setup::waited(setup::pair(), 0, LIMIT - 10);
    pin(rt, "10 left", bus, Some(1000), 1010)?;
    pin(rt, "10 left", bus, Some(1000), 1011)?;
    wait(rt, "10 left, blinker waits 5", bus, 1011, 1, 5)?;
    wait(rt, "10 left, driver waits 0", bus, 1010, 0, 0)?;
    wait(rt, "10 left, driver waits 1", bus, 1010, 0, 1)?;
    wait(rt, "10 left, nobody waits", bus, 1011, 2, 5)?;
    let put = Event::Signal(SignalEvent::Put(256));
    replayed(rt, "10 left, put", bus, Some(1000), 1011, put)
}

// Not well formed: 4 holds, also where the time does not fit, and nothing changes.
fn handed_in(rt: &impl Print) -> io::Result<()> {
    let past = setup::with_count(setup::pair(), 9);
    pin(rt, "count 9", past, Some(1000), 1010)?;
    wait(rt, "count 9, position 8", past, 1010, 8, 5)?;
    let illegal = setup::holding(setup::controlled(Chip::Pca9635, 16, 0x40));
    pin(rt, "control 40h", illegal, Some(1000), 1010)?;
    let full = setup::waited(setup::pair(), 0, LIMIT);
    let past_full = setup::with_count(full, 9);
    pin(rt, "count 9, no ticks left", past_full, Some(1000), 1001)?;
    pin(rt, "no ticks left", full, Some(1000), 1001)
}

fn run(rt: &impl Print) -> io::Result<()> {
    stamps(rt)?;
    clocks(rt)?;
    waits(rt)?;
    sleepers(rt)?;
    limits(rt)?;
    handed_in(rt)
}

// A write that fails ends the run, and the status stays 0.
fn main(rt: HostRuntime) {
    let _ = run(&rt);
}
