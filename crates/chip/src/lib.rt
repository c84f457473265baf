// What is fixed by the kind of a chip: its number of outputs, register map, addresses, control bytes, pointer moves and reset values.
#![tactic(auto)]

mod addresses;
mod control;
mod kinds;
mod registers;
mod values;

pub use addresses::is_barred;
pub use registers::{BLINK_PWM0, INPUT, LS0, MODE1, MODE2, PSC0, PWM0};

#[derive(Clone, Copy, Debug, PartialEq, Eq)]
pub enum Chip {
    Pca9635,
    Pca9634,
    Pca9531,
    Pca9551,
}

// A number that no chip has.
#[derive(Clone, Copy, Debug, PartialEq, Eq)]
pub struct UnknownChip(pub u64);

// Where a driver's registers start, after MODE1, MODE2 and the PWMs.
#[derive(Clone, Copy, Debug, PartialEq, Eq)]
pub struct RegisterMap {
    pub grppwm: u8,
    pub grpfreq: u8,
    pub ledout0: u8,
    pub subadr1: u8,
    pub allcalladr: u8,
}
