// What goes over the bus for all devices alike.
ghost use Rattle.std.specs.Prelude.{◌≡◌};
ghost use Rattle.protocol.specs.Signals.{takes_put, is_open, in_turn, phase_after_put, phase_after_signal, after_signal};

use crate::Signal;
use device::{Device, Phase};

fn takes_put(phase: Phase) -> bool
    ensures { result ≡ takes_put phase }
{
    matches!(phase, Phase::Address | Phase::Write)
}

pub fn is_open(phase: Phase) -> bool
    ensures { result ≡ is_open phase }
{
    phase != Phase::Idle
}

// Not "out of turn" (RULES, Refusals).
pub fn in_turn(phase: Phase, signal: Signal) -> bool
    ensures { result ≡ in_turn phase signal }
{
    match signal {
        Signal::Start => true,
        Signal::Stop => is_open(phase),
        Signal::Put(_) => takes_put(phase),
        Signal::Get(_) => phase.is_read(),
    }
}

fn phase_after_put(phase: Phase, byte: u8) -> Phase
    ensures { result ≡ phase_after_put phase byte }
{
    if phase == Phase::Address {
        crate::selection::phase_after_address(byte)
    } else {
        phase
    }
}

#[tactic(auto, unfolding(crate::specs::Signals::phase_after_signal))]
pub fn phase_after_signal(phase: Phase, signal: Signal) -> Phase
    ensures { result ≡ phase_after_signal phase signal }
{
    match signal {
        Signal::Start => Phase::Address,
        Signal::Stop => Phase::Idle,
        Signal::Put(byte) => phase_after_put(phase, byte),
        Signal::Get(ack) => crate::read::phase_after_get(ack),
    }
}

#[tactic(auto, unfolding(crate::specs::Signals::after_signal))]
pub fn after_signal(phase: Phase, signal: Signal, d: Device) -> Device
    ensures { result ≡ after_signal phase signal d }
{
    match signal {
        Signal::Start => crate::selection::after_start(d),
        Signal::Stop => crate::stop::after_stop(d),
        Signal::Put(byte) => crate::put::after_put(phase, byte, d),
        Signal::Get(ack) => crate::read::after_get(ack, d),
    }
}
