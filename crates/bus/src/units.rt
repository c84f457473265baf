// wait and lit for a duration, which says its unit.
ghost use Rattle.std.specs.Prelude.{◌≡◌, ◌<◌, length};
ghost use Rattle.device.specs.Output.{lit_for};
ghost use Rattle.totals.specs.Totals.{record_of};
ghost use Rattle.refusals.specs.Refusals.{code_of};
ghost use Rattle.refusals.specs.Reasons.{code_in};
ghost use Rattle.bus.specs.Place.{place_refusals};
ghost use Rattle.bus.specs.Units.{is_foreign, wait_refusals, wait_for_reply, lit_for_refusals, lit_for_reply};

use crate::checks::{is_missing, place_check};
use crate::devices::device_at;
use crate::{Bus, Judged, Reply, done, refused_for};
use device::Device;
use lamp::Duration;
use refusals::{Reason, judge};
use totals::proved_callers::{exceeds, wait};

fn is_foreign(d: Device, duration: Duration) -> bool
    ensures { result ≡ is_foreign d duration }
{
    !device::wait::is_own(d.chip, duration)
}

// The numbers of the wait itself.
fn wait_check(d: Device, lit: &[u64], unlit: &[u64], duration: Duration) -> Result<(), Reason>
    requires { (length lit.now ≡ 16) × (length unlit.now ≡ 16) }
    ensures { code_in result ≡ code_of (wait_refusals (record_of d lit.now unlit.now) duration) }
{
    judge(&[
        (Reason::PastLimit, exceeds(d, lit, unlit, duration)),
        (Reason::WrongDevice, is_foreign(d, duration)),
    ])
}

// At a position that has no number of its own. The totals of the device are lent to its wait.
#[tactic(auto, unfolding(crate::specs::Units::wait_for_reply))]
pub fn wait_at(bus: Bus, dev: usize, duration: Duration) -> Reply
    requires { (dev < 8) × (code_of (place_refusals bus dev) ≡ 0) }
    ensures { result ≡ wait_for_reply bus dev duration }
{
    let a = 16 * dev;
    let e = a + 16;
    let d = bus.devices[dev];
    if let Err(reason) = wait_check(d, &bus.lit[a..e], &bus.unlit[a..e], duration) {
        return refused_for(bus, reason);
    }
    let mut next = bus;
    next.devices[dev] = wait(d, duration, &mut next.lit[a..e], &mut next.unlit[a..e]);
    done(0, next)
}

impl Judged {
    #[tactic(auto, unfolding(crate::specs::Units::wait_for_reply))]
    pub fn wait_for(&self, dev: u64, duration: Duration) -> Reply
        ensures { result ≡ wait_for_reply self.now.bus dev duration }
    {
        if let Err(reason) = place_check(self.ok, self.bus.count, dev) {
            return refused_for(self.bus, reason);
        }
        wait_at(self.bus, dev as usize, duration)
    }

    fn lit_check(&self, dev: u64, out: u64, duration: Duration) -> Result<(), Reason>
        ensures { code_in result ≡ code_of (lit_for_refusals self.now.bus dev out duration) }
    {
        place_check(self.ok, self.bus.count, dev)?;
        let d = device_at(self.bus, dev);
        judge(&[
            (Reason::PastLimit, d.is_too_long(duration)),
            (Reason::NoOutput, is_missing(d, out)),
            (Reason::WrongDevice, is_foreign(d, duration)),
        ])
    }
}

// A reply's value is a bare number: here a lit count leaves its unit.
pub fn lit_value(d: Device, out: u8, duration: Duration) -> u64
    ensures { result ≡ lit_for d out duration }
{
    match duration {
        Duration::Ticks(ticks) => d.driver_lit(out, ticks).0,
        Duration::Steps(steps) => d.blinker_lit(out, steps).0,
    }
}

impl Judged {
    #[tactic(auto, unfolding(crate::specs::Units::lit_for_reply))]
    pub fn lit_for(&self, dev: u64, out: u64, duration: Duration) -> Reply
        ensures { result ≡ lit_for_reply self.now.bus dev out duration }
    {
        match self.lit_check(dev, out, duration) {
            Ok(()) => done(
                lit_value(device_at(self.bus, dev), out as u8, duration),
                self.bus,
            ),
            Err(reason) => refused_for(self.bus, reason),
        }
    }
}
