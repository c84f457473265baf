// What the outputs of a driver have in common over a wait: with it, an output's own lit ticks cost no division.
ghost use Rattle.std.specs.Prelude.{◌≡◌, ◌<◌, ◌%◌};
ghost use Rattle.lamp.specs.Window.{one_if};
ghost use Rattle.lamp.specs.laws.Shared.{group_of, between, single, awake_shared, asleep_shared, shared_of, Sound, lit_on, stretch_of, shared_lit, Fits};

use crate::group::Group;
use crate::{DriverTicks, GroupRegisters, Shared, Stretch, Unit};

impl Stretch {
    fn between(from: u64, end: u64) -> Self
        ensures { result ≡ between from end }
    {
        Stretch {
            whole: (end / 256).saturating_sub(from / 256),
            first: from % 256,
            last: end % 256,
        }
    }

    // One tick, or none where it does not count.
    fn single(at: u64, counts: bool) -> Self
        ensures { result ≡ single (at % 256) (one_if counts) }
    {
        let first = at % 256;
        Stretch {
            whole: 0,
            first,
            last: first + u64::from(counts),
        }
    }

    // Of each 256 ticks pwm are lit.
    fn lit_on(self, pwm: u8) -> u64
        requires { Sound self }
        ensures { result ≡ lit_on pwm self }
    {
        let n = pwm as u64;
        n * self.whole + self.last.min(n) - self.first.min(n)
    }
}

impl Shared {
    fn awake(group: Group, at: DriverTicks, ticks: DriverTicks) -> Self
        ensures { result ≡ awake_shared group at.0 ticks.0 }
    {
        if !at.has_room_for(ticks) {
            let none = Stretch::between(0, 0);
            return Shared {
                on: 0,
                each: 1,
                all: none,
                group: none,
            };
        }
        let end = at.0 + ticks.0;
        Shared {
            on: ticks.0,
            each: 1,
            all: Stretch::between(at.0, end),
            group: Stretch::between(group.ticks_below(at.0), group.ticks_below(end)),
        }
    }

    fn asleep(group: Group, at: DriverTicks, ticks: DriverTicks) -> Self
        ensures { result ≡ asleep_shared group at.0 ticks.0 }
    {
        Shared {
            on: ticks.0,
            each: ticks.0,
            all: Stretch::single(at.0, true),
            group: Stretch::single(at.0, group.holds(at.0)),
        }
    }

    // What an output that follows its brightness goes by: all ticks, or those of the group.
    fn stretch(self, ledout: u8) -> Stretch
        ensures { result ≡ stretch_of ledout self }
    {
        if ledout == 2 { self.all } else { self.group }
    }
}

impl GroupRegisters {
    // For all outputs of a driver.
    #[tactic(auto, unfolding(crate::specs::laws::Shared::shared_of))]
    pub fn shared(self, awake: bool, at: DriverTicks, ticks: DriverTicks) -> Shared
        ensures { result ≡ shared_of awake (group_of self.dmblnk self.grppwm self.grpfreq) at.0 ticks.0 }
    {
        if awake {
            Shared::awake(self.group(), at, ticks)
        } else {
            Shared::asleep(self.group(), at, ticks)
        }
    }
}

// The lit ticks of an output, by its two LEDOUT bits and its brightness, which is a byte.
#[tactic(auto, unfolding(crate::specs::laws::Shared::shared_lit))]
pub fn shared_lit(ledout: u8, pwm: u8, s: Shared) -> DriverTicks
    requires { Fits ledout s }
    ensures result_value { result.0 ≡ shared_lit ledout pwm s }
    ensures pwm_bound { pwm < 256 }
{
    match ledout {
        0 => DriverTicks(0),
        1 => DriverTicks(s.on),
        _ => DriverTicks(s.stretch(ledout).lit_on(pwm) * s.each),
    }
}
