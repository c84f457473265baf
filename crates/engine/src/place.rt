// What changes or asks the device at one position, and a further device.
ghost use Rattle.std.specs.Prelude.{◌≡◌, ◌<◌, cond, eqb, false, length};
ghost use Rattle.refusals.specs.Refusals.{code_of};
ghost use Rattle.refusals.specs.Reasons.{code_in, value_in};
ghost use Rattle.totals.specs.Totals.{record_of};
ghost use Rattle.totals.specs.Wait.{exceeds_for, waited_for};
ghost use Rattle.bus.specs.Place.{change_refusals, after_change, question_refusals, value_of};
ghost use Rattle.bus.specs.Devices.{device_at, record_at, with_device, with_record, with_added};
ghost use Rattle.engine.specs.Lens.{lent_bus, IsSameLoan};

use crate::Lent;
use crate::lens::{device_in, part, store_in};
use bus::proved_callers::level_check;
use bus::{Change, Question};
use device::Device;
use lamp::Duration;
use refusals::{Reason, judge};
use totals::proved_callers::{exceeds, wait};

#[tactic(auto, unfolding(bus::specs::Place::change_refusals, refusals::specs::Refusals::code_of))]
pub fn change_check(d: Device, lit: &[u64], unlit: &[u64], change: Change) -> Result<(), Reason>
    requires { (length lit.now ≡ 16) × (length unlit.now ≡ 16) }
    ensures { code_in result ≡ code_of (change_refusals (record_of d lit.now unlit.now) change) }
{
    let is_driver = d.chip.is_driver();
    match change {
        Change::Wait(ticks) => {
            let duration = device::wait::own_duration(d.chip, ticks);
            judge(&[(Reason::PastLimit, exceeds(d, lit, unlit, duration))])
        }
        Change::Oe(level) => level_check(1, level, !is_driver),
        Change::Ext(level) => level_check(255, level, is_driver),
        Change::Reset => Ok(()),
    }
}

impl Lent<'_> {
    pub(crate) fn device(&self, dev: usize) -> Device
        requires { dev < 8 }
        ensures { result ≡ device_at (lent_bus self.now) dev }
    {
        device_in(self.bytes, self.counts, dev)
    }

    // Its totals stay.
    fn put_device(&mut self, dev: usize, d: Device)
        requires { dev < 8 }
        ensures loan { IsSameLoan self.old self.new }
        ensures bus { lent_bus self.new ≡ with_device (lent_bus self.old) dev d }
    {
        store_in(d, self.bytes, self.counts, dev);
    }

    // ---- a change

    #[tactic(auto, using(crate::specs::laws::Place::record_loaded))]
    pub(crate) fn change_check(&self, dev: usize, change: Change) -> Result<(), Reason>
        requires { dev < 8 }
        ensures { code_in result ≡ code_of (change_refusals (record_at (lent_bus self.now) dev) change) }
    {
        let lit = &*self.lit;
        let unlit = &*self.unlit;
        change_check(
            self.device(dev),
            &lit[part::<16>(dev)],
            &unlit[part::<16>(dev)],
            change,
        )
    }

    // The bytes stay: of the device only the count changes.
    #[tactic(auto, using(crate::specs::laws::Place::waits))]
    fn wait(&mut self, dev: usize, duration: Duration)
        requires there { dev < 8 }
        requires fits { exceeds_for (record_at (lent_bus self.old) dev) duration ≡ false }
        ensures loan { IsSameLoan self.old self.new }
        ensures bus { lent_bus self.new ≡ with_record (lent_bus self.old) dev (waited_for (record_at (lent_bus self.old) dev) duration) }
    {
        let d = self.device(dev);
        let lit = &mut *self.lit;
        let unlit = &mut *self.unlit;
        let after = wait(
            d,
            duration,
            &mut lit[part::<16>(dev)],
            &mut unlit[part::<16>(dev)],
        );
        self.counts[dev] = after.count;
    }

    #[tactic(auto, using(crate::specs::laws::Place::device_back, bus::proofs::laws::Place::levels_byte), unfolding(bus::specs::Place::after_change, bus::specs::Place::change_refusals))]
    pub(crate) fn change(&mut self, dev: usize, change: Change)
        requires there { dev < 8 }
        requires accepted { code_of (change_refusals (record_at (lent_bus self.old) dev) change) ≡ 0 }
        ensures loan { IsSameLoan self.old self.new }
        ensures bus { lent_bus self.new ≡ with_record (lent_bus self.old) dev (after_change (record_at (lent_bus self.old) dev) change) }
    {
        let d = self.device(dev);
        match change {
            Change::Wait(ticks) => self.wait(dev, device::wait::own_duration(d.chip, ticks)),
            Change::Oe(level) => self.put_device(dev, d.with_oe(level == 1)),
            Change::Ext(level) => self.put_device(dev, d.with_levels((level % 256) as u8)),
            Change::Reset => self.put_device(dev, d.after_reset()),
        }
    }

    // ---- a question

    pub(crate) fn ask(&self, dev: usize, question: Question) -> Result<u64, Reason>
        requires { dev < 8 }
        ensures code { code_in result ≡ code_of (question_refusals (device_at (lent_bus self.now) dev) question) }
        ensures value { value_in result ≡ cond (eqb (code_in result) 0) (value_of (device_at (lent_bus self.now) dev) question) 0 }
    {
        bus::answer_of(self.device(dev), question)
    }

    // ---- a further device

    #[tactic(auto, using(crate::specs::laws::Place::add_back, bus::proofs::laws::Records::lent_long))]
    pub(crate) fn add(&mut self, d: Device)
        requires { self.old.count < 8 }
        ensures loan { IsSameLoan self.old self.new }
        ensures bus { lent_bus self.new ≡ with_added (lent_bus self.old) d }
    {
        let dev = self.count as usize;
        self.put_device(dev, d);
        let lit = &mut *self.lit;
        let unlit = &mut *self.unlit;
        lit[part::<16>(dev)].fill(0);
        unlit[part::<16>(dev)].fill(0);
        self.count += 1;
    }
}
