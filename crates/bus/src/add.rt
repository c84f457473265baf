// A further device.
ghost use Rattle.std.specs.Prelude.{◌≡◌};
ghost use Rattle.bus.specs.declared.Event.TheVariants.{Add};
ghost use Rattle.bus.specs.Events.{step_reply};

use crate::checks::add_check;
use crate::devices::with_added;
use crate::{Bus, Judged, Reply, done, refused_for};
use chip::Chip;
use device::Device;

impl Judged {
    #[tactic(auto, unfolding(crate::specs::Events::step_reply, crate::specs::Events::step_refusals, crate::specs::Events::step_done))]
    pub fn add(&self, chip: u64, address: u64) -> Reply
        ensures { result ≡ step_reply self.now.bus (Add chip address) }
    {
        match add_check(self.ok, self.bus.phase, self.bus.count, chip, address) {
            Ok(kind) => done(
                self.bus.count as u64,
                with_added(self.bus, Device::fresh(kind, address as u8)),
            ),
            Err(reason) => refused_for(self.bus, reason),
        }
    }
}
