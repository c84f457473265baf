// A device record with one field replaced.
ghost use Rattle.std.specs.Prelude.{◌≡◌};
ghost use Rattle.device.specs.Fields.{with_stage, with_oe, with_levels};

use crate::{Device, Stage};

impl Device {
    pub fn with_stage(self, stage: Stage) -> Device
        ensures { result ≡ with_stage self stage }
    {
        Device { stage, ..self }
    }

    pub fn with_oe(self, oe: bool) -> Device
        ensures { result ≡ with_oe self oe }
    {
        Device { oe, ..self }
    }

    pub fn with_levels(self, levels: u8) -> Device
        ensures { result ≡ with_levels self levels }
    {
        Device { levels, ..self }
    }
}
