// One device of the bus, by value: its record, and what the record says of itself.
#![tactic(auto)]

use chip::Chip;

mod fields;
pub mod output;
pub mod registers;
mod reset;
mod start;
pub mod wait;
mod well_formed;

// What a device is doing in the message on the bus: Talking is the rules' "talking"; Control, Data and the last three are their "listening".
// The last three are the software reset call: 06h taken, then A5h, then 5Ah.
#[derive(Clone, Copy, Debug, PartialEq, Eq)]
pub enum Stage {
    Unselected,
    Control,
    Data,
    Talking,
    ResetCall,
    ResetFirst,
    ResetBoth,
}

// The message on the bus: none, one whose address is due, a write, a read, and a read after a get that was not acknowledged.
#[derive(Clone, Copy, Debug, PartialEq, Eq)]
pub enum Phase {
    Idle,
    Address,
    Write,
    Read,
    Ended,
}

// The level of a pin.
#[derive(Clone, Copy, Debug, PartialEq, Eq)]
pub enum Level {
    Low,
    High,
    HighZ,
}

impl From<Level> for u64 {
    ghost use Rattle.std.specs.Prelude.{◌≡◌};
    ghost use Rattle.device.specs.Output.{level_number};

    ghost from_gives = { λ level number. number ≡ level_number level };

    fn from(level: Level) -> u64 {
        level as u64
    }
}

#[derive(Clone, Copy)]
pub struct Device {
    pub chip: Chip,
    pub stage: Stage,
    // the 7-bit address of a driver, the pins A2..A0 of a blinker
    pub address: u8,
    pub control: u8,
    // the rules' t: ticks of a driver, steps of a blinker
    pub count: u64,
    pub oe: bool,
    // the outside levels of a blinker's pins
    pub levels: u8,
    pub written: [u8; 28],
    pub effective: [u8; 28],
}
