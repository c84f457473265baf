// The limit of a device's count.
ghost use Rattle.std.specs.Prelude.{◌≡◌, ltb};
ghost use Rattle.lamp.specs.Window.{count_limit};
ghost use Rattle.lamp.specs.Duration.{amount};

use crate::{BlinkerSteps, DriverTicks, Duration};

// The largest count that a device reaches.
pub const LIMIT: u64 = 1 << 48;

impl Duration {
    // How many of its unit.
    pub fn amount(self) -> u64
        ensures { result ≡ amount self }
    {
        match self {
            Duration::Ticks(DriverTicks(n)) | Duration::Steps(BlinkerSteps(n)) => n,
        }
    }

    // Whether it is by itself longer than the limit.
    pub fn is_above_limit(self) -> bool
        ensures { result ≡ ltb count_limit (amount self) }
    {
        self.amount() > LIMIT
    }
}
