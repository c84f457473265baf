// What an output follows, whether it is lit, for how many ticks, and the level of its pin.
ghost use Rattle.std.specs.Prelude.{◌≡◌, cond, ◌<◌};
ghost use Rattle.lamp.specs.declared.Duration.TheVariants.{Ticks, Steps};
ghost use Rattle.lamp.specs.Window.{counted_ticks};
ghost use Rattle.chip.specs.Kinds.{outputs_of};
ghost use Rattle.chip.specs.Registers.{grpfreq};
ghost use Rattle.device.specs.Registers.{in_effect, is_awake, is_blinking};
ghost use Rattle.device.specs.Wait.{is_own};
ghost use Rattle.device.specs.laws.Output.{grppwm_of, driver_shared};
ghost use Rattle.device.specs.Output.{pair_of, ledout_of, driver_output, blinker_mode, ls_of, blink_of, blinker_by, blinker_output, lit_now, lit_for, undriven, disabled_pin, driver_pin, level_number, pin_of, input_bit, input_byte};

use crate::{Device, Level, registers};
use chip::Chip;
use lamp::{
    BlinkerMode, BlinkerSteps, DriverMode, DriverTicks, GroupRegisters, Mode, Shared, Unit,
};

// An output's two bits of a byte that holds those of four.
pub fn pair(byte: u8, out: u8) -> u8
    ensures { result ≡ pair_of byte out }
{
    (byte >> (2 * (out % 4))) % 4
}

impl Device {
    fn ledout_of(self, out: u8) -> u8
        ensures { result ≡ ledout_of self (outputs_of self.chip) out }
    {
        let map = self.chip.register_map();
        let group = map.ledout0 as usize + out as usize / 4;
        pair(self.in_effect(group), out)
    }

    fn group_registers(self) -> GroupRegisters
        ensures { result ≡ record { dmblnk = is_blinking self; grppwm = grppwm_of self; grpfreq = in_effect self (grpfreq (outputs_of self.chip)) } }
    {
        let map = self.chip.register_map();
        GroupRegisters {
            dmblnk: self.is_blinking(),
            grppwm: self.in_effect(map.grppwm as usize),
            grpfreq: self.in_effect(map.grpfreq as usize),
        }
    }

    #[tactic(auto, unfolding(crate::specs::Output::driver_output))]
    fn driver_output(self, out: u8) -> DriverMode
        ensures { result ≡ driver_output self (outputs_of self.chip) out }
    {
        let pwm = self.in_effect(chip::PWM0 as usize + out as usize);
        DriverMode::new(self.ledout_of(out), pwm, self.group_registers())
    }
}

fn blinker_mode(chip: Chip, ls: u8, psc: u8, pwm: u8) -> BlinkerMode
    ensures { result ≡ blinker_mode chip ls psc pwm }
{
    match (chip, ls) {
        (Chip::Pca9635 | Chip::Pca9634, _) => BlinkerMode::Off,
        (Chip::Pca9531, 0) => BlinkerMode::Off,
        (Chip::Pca9531, 1) => BlinkerMode::On,
        (Chip::Pca9531, _) => BlinkerMode::LitBelow { psc, pwm },
        (Chip::Pca9551, 0) => BlinkerMode::On,
        (Chip::Pca9551, 1) => BlinkerMode::Off,
        (Chip::Pca9551, _) => BlinkerMode::LitFrom { psc, pwm },
    }
}

fn blink_of(ls: u8) -> u8
    ensures { result ≡ blink_of ls }
{
    if ls == 3 { 2 } else { 0 }
}

fn input_weight(on: bool, weight: u16) -> u16
    ensures { result ≡ cond on weight 0 }
{
    if on { weight } else { 0 }
}

impl Device {
    // An output's two LS bits.
    pub fn ls_of(self, out: u8) -> u8
        ensures value { result ≡ ls_of self out }
        ensures upper_bound { result < 4 }
    {
        pair(self.held(chip::LS0 as usize + out as usize / 4), out)
    }

    // What an output with these LS bits follows.
    pub fn blinker_by(self, ls: u8) -> BlinkerMode
        ensures { result ≡ blinker_by self ls }
    {
        let blink = blink_of(ls) as usize;
        let psc = self.held(chip::PSC0 as usize + blink);
        let pwm = self.held(chip::BLINK_PWM0 as usize + blink);
        blinker_mode(self.chip, ls, psc, pwm)
    }

    #[tactic(auto, unfolding(crate::specs::Output::blinker_output))]
    fn blinker_output(self, out: u8) -> BlinkerMode
        ensures { result ≡ blinker_output self out }
    {
        self.blinker_by(self.ls_of(out))
    }

    // The rules' "lit", at the present count.
    #[tactic(auto, unfolding(crate::specs::Output::lamp_lit))]
    pub fn is_lit(self, out: u8) -> bool
        ensures { result ≡ lit_now self out }
    {
        if self.chip.is_driver() {
            self.driver_output(out).is_lit(DriverTicks(self.count))
        } else {
            self.blinker_output(out).is_lit(BlinkerSteps(self.count))
        }
    }

    // The question "lit", of an output that follows a mode: how long it is lit of the next so long; asleep, all of it or none.
    fn lit_by<M: Mode>(self, mode: M, wait: M::Unit) -> M::Unit
        ensures { M.Unit.count result ≡ cond (is_own self.chip (M.Unit.duration wait)) (cond (is_awake self) (counted_ticks (M.lit mode) self.count (M.Unit.count wait)) (cond (M.lit mode self.count) (M.Unit.count wait) 0)) 0 }
    {
        let at = M::Unit::of(self.count);
        if !crate::wait::is_own(self.chip, wait.duration()) {
            M::Unit::of(0)
        } else if self.is_awake() {
            mode.lit_for(at, wait)
        } else if mode.is_lit(at) {
            wait
        } else {
            M::Unit::of(0)
        }
    }

    // Of a driver, in its ticks.
    #[tactic(auto, unfolding(crate::specs::Output::lamp_lit, crate::specs::Output::lit_of))]
    pub fn driver_lit(self, out: u8, ticks: DriverTicks) -> DriverTicks
        ensures { result.0 ≡ lit_for self out (Ticks ticks) }
    {
        self.lit_by(self.driver_output(out), ticks)
    }

    // Of a blinker, in its steps.
    #[tactic(auto, unfolding(crate::specs::Output::lamp_lit, crate::specs::Output::lit_of))]
    pub fn blinker_lit(self, out: u8, steps: BlinkerSteps) -> BlinkerSteps
        ensures { result.0 ≡ lit_for self out (Steps steps) }
    {
        self.lit_by(self.blinker_output(out), steps)
    }

    // What all outputs of a driver share over a wait.
    pub fn driver_shared(self, ticks: DriverTicks) -> Shared
        ensures value { result ≡ driver_shared self ticks.0 }
        ensures d_bound { grppwm_of self < 256 }
    {
        self.group_registers()
            .shared(self.is_awake(), DriverTicks(self.count), ticks)
    }

    // What a driver's pin does when it is not pulled low.
    fn undriven(self) -> Level
        ensures { level_number result ≡ undriven self }
    {
        if self.is_totem_pole() {
            Level::High
        } else {
            Level::HighZ
        }
    }

    fn disabled_pin(self) -> Level
        ensures { level_number result ≡ disabled_pin self }
    {
        match self.outne() {
            0 => Level::Low,
            1 => self.undriven(),
            _ => Level::HighZ,
        }
    }

    fn driver_pin(self, lit: bool) -> Level
        ensures { level_number result ≡ driver_pin self lit }
    {
        if self.oe {
            self.disabled_pin()
        } else if lit != self.is_inverted() {
            Level::Low
        } else {
            self.undriven()
        }
    }

    #[tactic(auto, unfolding(crate::specs::Output::pin_of))]
    pub fn pin(self, out: u8) -> Level
        ensures { level_number result ≡ pin_of self out }
    {
        if self.chip.is_driver() {
            self.driver_pin(self.is_lit(out))
        } else if self.is_lit(out) {
            Level::Low
        } else {
            Level::HighZ
        }
    }

    // Bit i of INPUT: 0 where the output is lit, else the outside level.
    fn input_bit(self, i: u8) -> bool
        ensures { result ≡ input_bit self i }
    {
        !self.is_lit(i) && registers::bit(i, self.levels)
    }

    // INPUT of a blinker.
    #[tactic(auto, unfolding(crate::specs::Output::input_byte))]
    pub fn input_byte(self) -> u8
        ensures { result ≡ input_byte self }
    {
        let mut byte: u16 = 0;
        let mut weight: u16 = 1;
        // by the number of an output, since the sum keeps the form that its laws have: `fold` (tried) proves less
        for i in 0..8 {
            byte += input_weight(self.input_bit(i), weight);
            weight += weight;
        }
        byte as u8
    }
}
