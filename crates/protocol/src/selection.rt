// Who answers an address.
ghost use Rattle.std.specs.Prelude.{◌≡◌};
ghost use Rattle.chip.specs.Kinds.{outputs_of};
ghost use Rattle.protocol.specs.Selection.{after_start, own_address, shared_by, answers_shared, answers, call_stage, stage_after_address, phase_after_address};

use device::registers::bit;
use device::{Device, Phase, Stage};

pub fn after_start(d: Device) -> Device
    ensures { result ≡ after_start d }
{
    d.with_stage(Stage::Unselected)
}

#[tactic(auto, unfolding(crate::specs::Selection::own_address))]
fn own_address(d: Device) -> u16
    ensures { result ≡ own_address d }
{
    if d.chip.is_driver() {
        d.address as u16
    } else {
        96 + d.address as u16
    }
}

// Bit k of MODE1 lets the driver answer the address in bits 7..1 of the register.
fn shared_by(d: Device, k: u8, register: usize, address: u8) -> bool
    ensures { result ≡ shared_by d k register address }
{
    bit(k, d.written[chip::MODE1 as usize]) && d.held(register) / 2 == address
}

// ALLCALLADR with MODE1 bit 0; SUBADR1, 2, 3 with bits 3, 2, 1.
#[tactic(auto, unfolding(crate::specs::Selection::answers_shared))]
fn answers_shared(d: Device, address: u8) -> bool
    ensures { result ≡ answers_shared d (outputs_of d.chip) address }
{
    let map = d.chip.register_map();
    let subadr1 = map.subadr1 as usize;
    shared_by(d, 0, map.allcalladr as usize, address)
        || shared_by(d, 3, subadr1, address)
        || shared_by(d, 2, subadr1 + 1, address)
        || shared_by(d, 1, subadr1 + 2, address)
}

#[tactic(auto, unfolding(crate::specs::Selection::answers))]
fn is_addressed(d: Device, address: u8) -> bool
    ensures { result ≡ answers d address }
{
    own_address(d) == address as u16 || d.chip.is_driver() && answers_shared(d, address)
}

fn reset_call(d: Device, byte: u8) -> Stage
    ensures { result ≡ call_stage d byte }
{
    if byte % 2 == 0 && d.chip.is_driver() {
        Stage::ResetCall
    } else {
        Stage::Unselected
    }
}

// The stage after the address byte.
#[tactic(auto, unfolding(crate::specs::Selection::stage_after_address))]
pub fn stage_after_address(d: Device, byte: u8) -> Stage
    ensures { result ≡ stage_after_address d byte }
{
    if byte / 2 == 3 {
        reset_call(d, byte)
    } else if is_addressed(d, byte / 2) {
        if byte % 2 == 0 {
            Stage::Control
        } else {
            Stage::Talking
        }
    } else {
        Stage::Unselected
    }
}

pub fn phase_after_address(byte: u8) -> Phase
    ensures { result ≡ phase_after_address byte }
{
    if byte % 2 == 0 {
        Phase::Write
    } else {
        Phase::Read
    }
}
