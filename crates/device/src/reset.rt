// A fresh device, and the reset of one.
ghost use Rattle.std.specs.Prelude.{◌≡◌};
ghost use Rattle.device.specs.Reset.{fresh, after_reset};

use crate::{Device, Stage};
use chip::Chip;

impl Device {
    pub fn fresh(chip: Chip, address: u8) -> Device
        ensures { result ≡ fresh chip address }
    {
        let registers = chip.reset_registers();
        Device {
            chip,
            stage: Stage::Unselected,
            address,
            control: chip.reset_control(),
            count: 0,
            oe: false,
            levels: 255,
            written: registers,
            effective: registers,
        }
    }

    #[tactic(auto, unfolding(crate::specs::Reset::after_reset))]
    pub fn after_reset(self) -> Device
        ensures { result ≡ after_reset self }
    {
        Device {
            oe: self.oe,
            levels: self.levels,
            ..Device::fresh(self.chip, self.address)
        }
    }
}
