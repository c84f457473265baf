// The same of a record by value.
ghost use Rattle.std.specs.Prelude.{◌≡◌, false};
ghost use Rattle.totals.specs.Totals.{totals_fit, legal_record};
ghost use Rattle.totals.specs.Wait.{exceeds_for, waited_for};

use crate::{Record, limits, raise};
use lamp::Duration;

impl Record {
    // Whether its totals can be handed in.
    pub fn totals_fit(self) -> bool
        ensures { result ≡ totals_fit self 0 }
    {
        limits::fit(self.device.chip, &self.lit, &self.unlit)
    }

    // Whether it can be handed in by itself.
    pub fn is_legal(self) -> bool
        ensures { result ≡ legal_record self }
    {
        self.device.is_ok() && self.totals_fit()
    }

    pub fn exceeds(self, duration: Duration) -> bool
        ensures { result ≡ exceeds_for self duration }
    {
        limits::exceeds(self.device, &self.lit, &self.unlit, duration)
    }
}

// After a wait that exceeds nothing.
pub fn record_waited(r: Record, duration: Duration) -> Record
    requires { exceeds_for r duration ≡ false }
    ensures { result ≡ waited_for r duration }
{
    let mut lit = r.lit;
    let mut unlit = r.unlit;
    let device = raise::wait(r.device, duration, &mut lit, &mut unlit);
    Record { device, lit, unlit }
}
