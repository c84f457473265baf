// A device with the totals of its outputs, and a wait of it.
#![tactic(auto)]

use device::Device;

mod limits;
pub mod proved_callers;
mod raise;
mod records;

// A device, and for each of its outputs how long it was lit and how long unlit, in the unit of the device's kind, over all its waits.
// Numbers past the chip's outputs are 0.
#[derive(Clone, Copy)]
pub struct Record {
    pub device: Device,
    pub lit: [u64; 16],
    pub unlit: [u64; 16],
}
