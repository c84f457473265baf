// When the two blinks of a blinker begin together again.
ghost use Rattle.std.specs.Prelude.{◌≡◌};
ghost use Rattle.device.specs.Start.{common_start_of};

use crate::Device;
use lamp::BlinkerSteps;

impl Device {
    pub fn common_start(self) -> BlinkerSteps
        ensures { result.0 ≡ common_start_of self }
    {
        let psc0 = chip::PSC0 as usize;
        blink::common_start(self.written[psc0], self.written[psc0 + 2])
    }
}
