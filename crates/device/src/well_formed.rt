// Which records can be handed in.
ghost use Rattle.std.specs.Prelude.{◌≡◌};
ghost use Rattle.device.specs.WellFormed.{record_ok, is_write, is_read, stage_fits, well_formed};

use crate::{Device, Phase, Stage};

impl Phase {
    pub fn is_write(self) -> bool
        ensures { result ≡ is_write self }
    {
        self == Phase::Write
    }

    pub fn is_read(self) -> bool
        ensures { result ≡ is_read self }
    {
        self == Phase::Read
    }
}

impl Stage {
    fn fits(self, phase: Phase) -> bool
        ensures { result ≡ stage_fits phase self }
    {
        match self {
            Stage::Unselected => true,
            Stage::Talking => phase.is_read(),
            Stage::Control
            | Stage::Data
            | Stage::ResetCall
            | Stage::ResetFirst
            | Stage::ResetBoth => phase.is_write(),
        }
    }
}

impl Device {
    #[tactic(auto, unfolding(crate::specs::WellFormed::record_ok))]
    pub fn is_ok(self) -> bool
        ensures { result ≡ record_ok self }
    {
        self.chip.is_legal(self.control)
            && self.chip.allows(self.address as u64)
            && self.count <= lamp::LIMIT
    }

    // Whether the record can stand on a bus in this phase.
    #[tactic(auto, unfolding(crate::specs::WellFormed::well_formed))]
    pub fn is_well_formed(self, phase: Phase) -> bool
        ensures { result ≡ well_formed phase self }
    {
        self.is_ok() && self.stage.fits(phase)
    }
}
