// A byte that the master puts, by the message's phase.
ghost use Rattle.std.specs.Prelude.{◌≡◌};
ghost use Rattle.protocol.specs.Put.{is_selected, after_put, acks_to};

use device::{Device, Phase, Stage};

pub fn is_selected(stage: Stage) -> bool
    ensures { result ≡ is_selected stage }
{
    stage != Stage::Unselected
}

// The device after the byte.
#[tactic(auto, unfolding(crate::specs::Put::after_put))]
pub fn after_put(phase: Phase, byte: u8, d: Device) -> Device
    ensures { result ≡ after_put phase byte d }
{
    match phase {
        Phase::Address => d.with_stage(crate::selection::stage_after_address(d, byte)),
        Phase::Write => crate::write::after_byte(byte, d),
        Phase::Idle | Phase::Read | Phase::Ended => d,
    }
}

// Whether the device acknowledges the byte.
#[tactic(auto, unfolding(crate::specs::Put::acks_to))]
pub fn acks(phase: Phase, byte: u8, d: Device) -> bool
    ensures { result ≡ acks_to phase byte d }
{
    match phase {
        Phase::Address => is_selected(crate::selection::stage_after_address(d, byte)),
        Phase::Write => crate::write::acks(byte, d),
        Phase::Idle | Phase::Read | Phase::Ended => false,
    }
}
