// What a device does at a get.
ghost use Rattle.std.specs.Prelude.{◌≡◌};
ghost use Rattle.protocol.specs.Read.{is_talking, register_byte, pointed_byte, talk_of, after_talk, after_get, phase_after_get};

use device::{Device, Phase, Stage};

fn is_talking(d: Device) -> bool
    ensures { result ≡ is_talking d.stage }
{
    d.stage == Stage::Talking
}

// A register other than INPUT as it reads.
#[tactic(auto, unfolding(crate::specs::Read::register_byte))]
fn register_byte(d: Device) -> u8
    ensures { result ≡ register_byte d }
{
    d.chip.read(d.control, d.held(d.pointer()))
}

#[tactic(auto, unfolding(crate::specs::Read::pointed_byte))]
fn pointed_byte(d: Device) -> u8
    ensures { result ≡ pointed_byte d }
{
    if !d.chip.is_driver() && d.pointer() == chip::INPUT as usize {
        d.input_byte()
    } else {
        register_byte(d)
    }
}

// What the device puts on the bus, the rules' "talking"; all ones where it does not talk.
#[tactic(auto, unfolding(crate::specs::Read::talk_of))]
pub fn talk(d: Device) -> u8
    ensures { result ≡ talk_of d }
{
    if is_talking(d) { pointed_byte(d) } else { 255 }
}

#[tactic(auto, unfolding(crate::specs::Read::after_talk))]
fn after_talk(d: Device) -> Device
    ensures { result ≡ after_talk d }
{
    if is_talking(d) {
        Device {
            control: d.chip.moved(d.control),
            ..d
        }
    } else {
        d
    }
}

// The device after a get with the master's ack.
#[tactic(auto, unfolding(crate::specs::Read::after_get))]
pub fn after_get(ack: bool, d: Device) -> Device
    ensures { result ≡ after_get ack d }
{
    if ack {
        after_talk(d)
    } else {
        after_talk(d).with_stage(Stage::Unselected)
    }
}

// A get with ack 0 ends the read.
pub fn phase_after_get(ack: bool) -> Phase
    ensures { result ≡ phase_after_get ack }
{
    if ack { Phase::Read } else { Phase::Ended }
}
