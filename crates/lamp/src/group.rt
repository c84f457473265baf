// A driver's group test, dimming or blinking.
ghost use Rattle.std.specs.Prelude.{◌≡◌, ◌*◌, ltb, ◌%◌};

use crate::{GroupRegisters, count};
use std::marker::Model;

// The period of group dimming, in ticks.
const DIMMING_PERIOD: u64 = 131072;

// It holds for the first `on` ticks of each `period`.
#[derive(Clone, Copy, Debug, PartialEq, Eq)]
pub struct Group {
    period: u64,
    on: u64,
}

impl Model for Group {
    ghost use Rattle.lamp.specs.laws.Group.{Group, IsGroup};

    ghost Value = { Group };

    ghost view = { λ g. record { period = g.period; on = g.on } };

    ghost invariant = { λ g. IsGroup g.period g.on };

    ghost inverse = { λ g. record { period = g.period; on = g.on } };
}

impl Group {
    ghost use Rattle.lamp.specs.Driver.{grouped, blink_period, blink_on};
    ghost use Rattle.lamp.specs.Window.{lit_ticks};
    ghost use Rattle.lamp.specs.laws.Shared.{group_below};

    pub fn dimming(grppwm: u8) -> Self
        ensures { result ≡ record { period = 131072; on = 512 * grppwm } }
    {
        Group {
            period: DIMMING_PERIOD,
            on: 512 * grppwm as u64,
        }
    }

    pub fn blinking(grppwm: u8, grpfreq: u8) -> Self
        ensures { result ≡ record { period = blink_period grpfreq; on = blink_on grpfreq grppwm } }
    {
        let units = grpfreq as u64 + 1;
        Group {
            period: units * 1048576,
            on: grppwm as u64 * units * 4096,
        }
    }

    pub fn holds(self, at: u64) -> bool
        ensures { result ≡ ltb (at % self.period) self.on }
    {
        at % self.period < self.on
    }

    // At how many of the first x ticks it holds.
    pub fn ticks_below(self, x: u64) -> u64
        ensures { result ≡ group_below self x }
    {
        count::duty(self.period, self.on, x)
    }

    // The lit ones of the first x ticks at brightness pwm. Both numbers are multiples of 256: the ticks at which the test holds are
    // counted first, and of each 256 of these `pwm` are lit.
    pub fn lit_below(self, pwm: u8, x: u64) -> u64
        ensures { result ≡ lit_ticks (grouped self.period self.on pwm) 0 x }
    {
        count::individual(pwm, count::duty(self.period, self.on, x))
    }
}

impl GroupRegisters {
    ghost use Rattle.lamp.specs.laws.Shared.{group_of};

    // The test that they make.
    pub fn group(self) -> Group
        ensures { result ≡ group_of self.dmblnk self.grppwm self.grpfreq }
    {
        if self.dmblnk {
            Group::blinking(self.grppwm, self.grpfreq)
        } else {
            Group::dimming(self.grppwm)
        }
    }
}
