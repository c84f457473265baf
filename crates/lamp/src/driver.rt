// When an output of a driver is lit, and for how many ticks.
ghost use Rattle.std.specs.Prelude.{◌≡◌};
ghost use Rattle.lamp.specs.Driver.{individual, driver_mode, driver_lit};

use crate::group::Group;
use crate::{DriverMode, DriverTicks, GroupRegisters, Mode, count};

impl DriverMode {
    // What a driver's registers make of one of its outputs.
    pub fn new(ledout: u8, pwm: u8, group: GroupRegisters) -> Self
        ensures { result ≡ driver_mode ledout group.dmblnk pwm group.grppwm group.grpfreq }
    {
        let GroupRegisters {
            dmblnk,
            grppwm,
            grpfreq,
        } = group;
        match ledout {
            0 => DriverMode::Off,
            1 => DriverMode::On,
            2 => DriverMode::Individual { pwm },
            _ if dmblnk => DriverMode::Blinking {
                pwm,
                grppwm,
                grpfreq,
            },
            _ => DriverMode::Dimmed { pwm, grppwm },
        }
    }
}

// Individual brightness: lit for the first pwm ticks of each 256.
#[tactic(auto, unfolding(crate::specs::Driver::individual))]
fn individual(pwm: u8, at: u64) -> bool
    ensures { result ≡ individual pwm at }
{
    at % 256 < pwm as u64
}

impl Mode for DriverMode {
    type Unit = DriverTicks;

    ghost lit = { driver_lit };

    #[tactic(auto, unfolding(crate::specs::Driver::driver_lit, crate::specs::Driver::grouped))]
    fn is_lit(self, at: DriverTicks) -> bool {
        let at = at.0;
        match self {
            DriverMode::Off => false,
            DriverMode::On => true,
            DriverMode::Individual { pwm } => individual(pwm, at),
            DriverMode::Dimmed { pwm, grppwm } => individual(pwm, at)
                && Group::dimming(grppwm).holds(at),
            DriverMode::Blinking {
                pwm,
                grppwm,
                grpfreq,
            } => individual(pwm, at) && Group::blinking(grppwm, grpfreq).holds(at),
        }
    }

    #[tactic(auto, unfolding(crate::specs::Driver::driver_lit))]
    fn lit_before(self, end: DriverTicks) -> DriverTicks {
        let end = end.0;
        DriverTicks(match self {
            DriverMode::Off => 0,
            DriverMode::On => end,
            DriverMode::Individual { pwm } => count::individual(pwm, end),
            DriverMode::Dimmed { pwm, grppwm } => Group::dimming(grppwm).lit_below(pwm, end),
            DriverMode::Blinking {
                pwm,
                grppwm,
                grpfreq,
            } => Group::blinking(grppwm, grpfreq).lit_below(pwm, end),
        })
    }
}
