// The registers, by the data sheets' names, and where a driver's lie.
ghost use Rattle.std.specs.Prelude.{◌≡◌};
ghost use Rattle.chip.specs.Kinds.{outputs_of};
ghost use Rattle.chip.specs.Registers.{register_map, is_buffered, first_writable, writables};

use crate::{Chip, RegisterMap};

// The drivers' first registers; the other PWMs follow PWM0.
pub const MODE1: u8 = 0;

pub const MODE2: u8 = 1;

pub const PWM0: u8 = 2;

// The blinkers' registers: PSC1 and PWM1 are two after PSC0 and PWM0, LS1 follows LS0.
pub const INPUT: u8 = 0;

pub const PSC0: u8 = 1;

pub const BLINK_PWM0: u8 = 2;

pub const LS0: u8 = 5;

impl Chip {
    // A blinker has no such map: for one this is the map of a driver with as many outputs.
    pub fn register_map(self) -> RegisterMap
        ensures { result ≡ register_map (outputs_of self) }
    {
        let n = self.outputs();
        RegisterMap {
            grppwm: n + 2,
            grpfreq: n + 3,
            ledout0: n + 4,
            subadr1: n + 4 + n / 4,
            allcalladr: n + 7 + n / 4,
        }
    }

    // Whether the chip holds this register as written and as in effect.
    #[tactic(auto, unfolding(crate::specs::Registers::is_buffered))]
    pub fn is_buffered(self, register: usize) -> bool
        ensures { result ≡ is_buffered self register }
    {
        self.is_driver()
            && (PWM0 as usize..self.register_map().subadr1 as usize).contains(&register)
    }

    // The first register that can be written.
    pub fn first_writable(self) -> u8
        ensures { result ≡ first_writable self }
    {
        if self.is_driver() { MODE1 } else { PSC0 }
    }

    // How many registers can be written, from the first on.
    pub fn writables(self) -> u8
        ensures { result ≡ writables self }
    {
        if self.is_driver() {
            self.register_map().allcalladr + 1
        } else {
            LS0 + 1
        }
    }
}
