// What one device does on the bus: at START, at each byte, at a get and at STOP.
#![tactic(auto)]

pub mod put;
pub mod read;
pub mod selection;
pub mod signals;
pub mod stop;
pub mod write;

// What goes over the bus for all devices alike: a byte put by the master, a get with its acknowledge.
#[derive(Clone, Copy, Debug, PartialEq, Eq)]
pub enum Signal {
    Start,
    Stop,
    Put(u8),
    Get(bool),
}
