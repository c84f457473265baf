// A unit of time, by its oscillator. Ticks and steps are never added: what is alike of both is written once, over this.
ghost use Rattle.std.specs.Prelude.{◌≡◌, ℕ, ◌+◌, ◌-◌, ◌^◌, ◌<◌, ◌≤◌, leb, refl};
ghost use Rattle.lamp.specs.Window.{count_limit};
ghost use Rattle.lamp.specs.Duration.{amount};
ghost use Rattle.lamp.specs.declared.Duration.{Duration};
ghost use Rattle.lamp.specs.declared.Duration.TheVariants.{Ticks, Steps};

use crate::{BlinkerSteps, DriverTicks, Duration, LIMIT};

pub trait Unit: Copy {
    ghost count: { Self → ℕ };

    ghost duration: { Self → Duration };

    fn of(n: u64) -> Self
        ensures { count result ≡ n };

    fn count(self) -> u64
        ensures { result ≡ count self };

    fn duration(self) -> Duration
        ensures { result ≡ duration self };

    // Whether a window of so many from this count on ends by the limit of a device's count.
    final fn has_room_for(self, more: Self) -> bool
        ensures { result ≡ leb (count self + count more) count_limit }
    {
        self.count() <= LIMIT && more.count() <= LIMIT - self.count()
    }

    ghost amount_of_duration: { (x : Self) → amount (duration x) ≡ count x };
}

impl Unit for DriverTicks {
    ghost count = { λ ticks. ticks.0 };

    ghost duration = { Ticks };

    ghost amount_of_duration = { λ ticks. refl };

    fn of(n: u64) -> Self {
        DriverTicks(n)
    }

    fn count(self) -> u64 {
        self.0
    }

    fn duration(self) -> Duration {
        Duration::Ticks(self)
    }
}

impl Unit for BlinkerSteps {
    ghost count = { λ steps. steps.0 };

    ghost duration = { Steps };

    ghost amount_of_duration = { λ steps. refl };

    fn of(n: u64) -> Self {
        BlinkerSteps(n)
    }

    fn count(self) -> u64 {
        self.0
    }

    fn duration(self) -> Duration {
        Duration::Steps(self)
    }
}

pub fn sum<U: Unit>(count: U, more: U) -> U
    requires { U.count count + U.count more < 2 ^ 64 }
    ensures { U.count result ≡ U.count count + U.count more }
{
    U::of(count.count() + more.count())
}

pub fn rest<U: Unit>(count: U, less: U) -> U
    requires { U.count less ≤ U.count count }
    ensures { U.count result ≡ U.count count - U.count less }
{
    U::of(count.count() - less.count())
}
