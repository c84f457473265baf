// The control byte of a chip: the register that it points at, which bytes are legal, and how it moves.
ghost use Rattle.std.specs.Prelude.{◌≡◌};
ghost use Rattle.chip.specs.Kinds.{outputs_of};
ghost use Rattle.chip.specs.Registers.{pointed};
ghost use Rattle.chip.specs.Control.{driver_legal, option_first, option_last, next_register, driver_moved, blinker_legal, blinker_moved, control_legal, control_moved};

use crate::Chip;

impl Chip {
    #[tactic(auto, unfolding(crate::specs::Registers::pointed))]
    pub fn register(self, control: u8) -> u8
        ensures { result ≡ pointed self control }
    {
        if self.is_driver() {
            control % 32
        } else {
            control % 8
        }
    }

    #[tactic(auto, unfolding(crate::specs::Control::control_legal))]
    pub fn is_legal(self, control: u8) -> bool
        ensures { result ≡ control_legal self control }
    {
        if self.is_driver() {
            self.driver_legal(control)
        } else {
            blinker_legal(control)
        }
    }

    #[tactic(auto, unfolding(crate::specs::Control::control_moved))]
    pub fn moved(self, control: u8) -> u8
        ensures { result ≡ control_moved self control }
    {
        if self.is_driver() {
            self.driver_moved(control)
        } else {
            blinker_moved(control)
        }
    }

    fn driver_legal(self, control: u8) -> bool
        ensures { result ≡ driver_legal (outputs_of self) control }
    {
        let option = control / 32;
        (option == 0 || 4 <= option) && control % 32 <= self.register_map().allcalladr
    }

    fn option_first(self, option: u8) -> u8
        ensures { result ≡ option_first (outputs_of self) option }
    {
        match option {
            5 => crate::PWM0,
            6 => self.register_map().grppwm,
            7 => crate::PWM0,
            _ => 0,
        }
    }

    fn option_last(self, option: u8) -> u8
        ensures { result ≡ option_last (outputs_of self) option }
    {
        let map = self.register_map();
        match option {
            5 => map.grppwm - 1,
            6 => map.grpfreq,
            7 => map.grpfreq,
            _ => map.allcalladr,
        }
    }

    // Where the pointer goes from a register.
    fn next_register(self, option: u8, register: u8) -> u8
        ensures { result ≡ next_register (outputs_of self) option register }
    {
        if register == self.option_last(option) {
            self.option_first(option)
        } else if self.register_map().allcalladr <= register {
            0
        } else {
            register + 1
        }
    }

    fn driver_moved(self, control: u8) -> u8
        ensures { result ≡ driver_moved (outputs_of self) control }
    {
        let option = control / 32;
        if option == 0 {
            control
        } else {
            option * 32 + self.next_register(option, control % 32)
        }
    }
}

fn blinker_legal(control: u8) -> bool
    ensures { result ≡ blinker_legal control }
{
    control / 32 == 0 && control / 8 % 2 == 0 && control % 8 <= 6
}

fn blinker_moved(control: u8) -> u8
    ensures { result ≡ blinker_moved control }
{
    if control / 16 % 2 == 0 {
        control
    } else if 6 <= control % 8 {
        control / 8 * 8
    } else {
        control + 1
    }
}
