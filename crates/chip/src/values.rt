// What registers hold: after reset, after a write, and as they are read.
ghost use Rattle.std.specs.Prelude.{◌≡◌, true, ◌++◌, replicate};
ghost use Rattle.chip.specs.Kinds.{is_driver, outputs_of};
ghost use Rattle.chip.specs.Values.{reset_control, driver_resets, blinker_resets, reset_registers, writable_bits, stored_byte, read_byte};

use crate::{Chip, MODE1, MODE2};

impl Chip {
    pub fn reset_control(self) -> u8
        ensures { result ≡ reset_control self }
    {
        if self.is_driver() { 0x80 } else { 0 }
    }

    // Registers that the chip does not have are 0.
    #[tactic(auto, unfolding(crate::specs::Values::reset_registers))]
    pub fn reset_registers(self) -> [u8; 28]
        ensures { result ≡ reset_registers self }
    {
        match self {
            Chip::Pca9635 | Chip::Pca9634 => self.driver_resets(),
            Chip::Pca9531 => blinker_resets(0, 0),
            Chip::Pca9551 => blinker_resets(0xFF, 0x55),
        }
    }

    #[tactic(auto, unfolding(crate::specs::Values::reset_registers))]
    fn driver_resets(self) -> [u8; 28]
        requires { is_driver self ≡ true }
        ensures { result ≡ reset_registers self }
    {
        let map = self.register_map();
        let grppwm = map.grppwm as usize;
        let subadr1 = map.subadr1 as usize;
        let mut registers = [0u8; 28];
        registers[MODE1 as usize] = 0x91;
        registers[MODE2 as usize] = 0x05;
        registers[grppwm] = 0xFF;
        registers[subadr1] = 0xE2;
        registers[subadr1 + 1] = 0xE4;
        registers[subadr1 + 2] = 0xE8;
        registers[map.allcalladr as usize] = 0xE0;
        registers
    }

    fn writable_bits(self, register: u8, byte: u8) -> u8
        ensures { result ≡ writable_bits (outputs_of self) register byte }
    {
        if register == MODE1 {
            byte % 32
        } else if register == MODE2 {
            byte % 64
        } else if self.register_map().subadr1 <= register {
            byte / 2 * 2
        } else {
            byte
        }
    }

    // What the register holds after a write of byte over old.
    #[tactic(auto, unfolding(crate::specs::Values::stored_byte))]
    pub fn stored(self, register: u8, old: u8, byte: u8) -> u8
        ensures { result ≡ stored_byte self register old byte }
    {
        if self.is_driver() {
            self.writable_bits(register, byte)
        } else if register == crate::INPUT {
            old
        } else {
            byte
        }
    }

    // What the pointed register reads as when it holds byte.
    #[tactic(auto, unfolding(crate::specs::Values::read_byte))]
    pub fn read(self, control: u8, byte: u8) -> u8
        ensures { result ≡ read_byte self control byte }
    {
        if self.is_driver() {
            let register = self.register(control);
            if register == MODE1 {
                byte % 32 + control / 32 * 32
            } else {
                self.writable_bits(register, byte)
            }
        } else {
            byte
        }
    }
}

fn blinker_resets(psc: u8, ls: u8) -> [u8; 28]
    ensures { result ≡ blinker_resets psc ls ++ replicate 21 0 }
{
    let psc0 = crate::PSC0 as usize;
    let pwm0 = crate::BLINK_PWM0 as usize;
    let ls0 = crate::LS0 as usize;
    let mut registers = [0u8; 28];
    registers[psc0] = psc;
    registers[pwm0] = 0x80;
    registers[psc0 + 2] = psc;
    registers[pwm0 + 2] = 0x80;
    registers[ls0] = ls;
    registers[ls0 + 1] = ls;
    registers
}
