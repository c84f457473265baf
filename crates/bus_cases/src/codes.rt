// The code of every call on a bus.
use bus::{Bus, calls};
use message::read::read_message;
use message::write::write_message;
use std::fmt;

// The bus's events; those of the device at a position, and the blink-start question; the messages.
#[derive(Clone, Copy)]
pub struct Codes {
    pub bus: Bus,
    pub dev: u64,
}

impl fmt::Display for Codes {
    fn fmt<W: fmt::Write>(&self, f: &mut fmt::Formatter<W>) -> fmt::Result {
        let Codes { bus, dev } = *self;
        let mut buffer = [0; 1];
        write!(f, "add={}", calls::add(bus, 9531, 0).code)?;
        write!(f, " start={}", calls::start(bus).code)?;
        write!(f, " stop={}", calls::stop(bus).code)?;
        write!(f, " put={}", calls::put(bus, 1).code)?;
        write!(f, " get={}", calls::get(bus, 1).code)?;
        write!(f, ", wait={}", calls::wait(bus, dev, 1).code)?;
        write!(f, " oe={}", calls::oe(bus, dev, 1).code)?;
        write!(f, " ext={}", calls::ext(bus, dev, 1).code)?;
        write!(f, " reset={}", calls::reset(bus, dev).code)?;
        write!(f, " lit={}", calls::lit(bus, dev, 0, 1).code)?;
        write!(f, " pin={}", calls::pin(bus, dev, 0).code)?;
        write!(f, " blink={}", calls::blink_start(bus, dev).code)?;
        write!(f, ", write={}", write_message(bus, 1, b"\x01").code)?;
        let read = read_message(bus, 1, 1, 1, &mut buffer, 0);
        write!(f, " read={}", read.code)
    }
}
