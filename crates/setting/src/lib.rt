// How a board is set up: its chip, its address and the values of its writable registers, as a text and as a record.
#![tactic(auto)]

use chip::Chip;

pub mod proved_callers;
mod read;
mod write;

pub use read::{Reading, read_setting};

// The values of the chip's writable registers come first, in map order; those behind them are 0.
#[derive(Clone, Copy, Debug, PartialEq, Eq)]
pub struct Setting {
    pub chip: Chip,
    pub addr: u8,
    pub values: [u8; 28],
}
