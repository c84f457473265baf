// Time: each kind of device counts in its own unit, and a wait in the other's moves nothing.
ghost use Rattle.std.specs.Prelude.{◌≡◌};
ghost use Rattle.device.specs.Wait.{advanced, is_own, own_duration, overruns_for, is_too_long_for, after_wait_for};

use crate::Device;
use chip::Chip;
use lamp::proved_callers::sum;
use lamp::{BlinkerSteps, DriverTicks, Duration, Unit};

// A bare number of ticks, as the events have it, in the unit of the chip's kind.
pub fn own_duration(chip: Chip, n: u64) -> Duration
    ensures { result ≡ own_duration chip n }
{
    if chip.is_driver() {
        Duration::Ticks(DriverTicks(n))
    } else {
        Duration::Steps(BlinkerSteps(n))
    }
}

pub fn is_own(chip: Chip, duration: Duration) -> bool
    ensures { result ≡ is_own chip duration }
{
    match duration {
        Duration::Ticks(_) => chip.is_driver(),
        Duration::Steps(_) => !chip.is_driver(),
    }
}

impl Device {
    // Whether an awake device's count would pass the limit. One in the other unit passes none.
    #[tactic(auto, unfolding(crate::specs::Wait::overruns))]
    pub fn overruns_by<U: Unit>(self, wait: U) -> bool
        ensures { result ≡ overruns_for self (U.duration wait) }
    {
        is_own(self.chip, wait.duration())
            && self.is_awake()
            && !U::of(self.count).has_room_for(wait)
    }

    pub fn overruns(self, duration: Duration) -> bool
        ensures { result ≡ overruns_for self duration }
    {
        match duration {
            Duration::Ticks(ticks) => self.overruns_by(ticks),
            Duration::Steps(steps) => self.overruns_by(steps),
        }
    }

    // The same, or longer than the limit by itself.
    pub fn is_too_long(self, duration: Duration) -> bool
        ensures { result ≡ is_too_long_for self duration }
    {
        duration.is_above_limit() || self.overruns(duration)
    }
}

// The count after a wait. Past the limit it stays, which no call lets happen.
#[tactic(auto, using(crate::proofs::laws::Wait::within_advanced, crate::proofs::laws::Wait::beyond_stays, lamp::proofs::laws::Count::within_fits))]
fn advanced<U: Unit>(at: U, more: U) -> U
    ensures { U.count result ≡ advanced (U.count at) (U.count more) }
{
    if at.has_room_for(more) {
        sum(at, more)
    } else {
        at
    }
}

impl Device {
    // Asleep a driver's count stands still.
    #[tactic(auto, unfolding(crate::specs::Wait::after_wait))]
    pub fn after_wait<U: Unit>(self, wait: U) -> Device
        ensures { result ≡ after_wait_for self (U.duration wait) }
    {
        if is_own(self.chip, wait.duration()) && self.is_awake() {
            Device {
                count: advanced(U::of(self.count), wait).count(),
                ..self
            }
        } else {
            self
        }
    }
}
