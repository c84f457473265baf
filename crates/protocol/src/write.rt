// What a device does at each byte of a write.
ghost use Rattle.std.specs.Prelude.{◌≡◌, cond};
ghost use Rattle.device.specs.Fields.{with_stage};
ghost use Rattle.device.specs.declared.Stage.TheVariants.{Unselected};
ghost use Rattle.protocol.specs.Write.{after_control, new_byte, effective_after_data, wakes, count_after_data, after_data, is_call_byte, after_byte, acks_data};

use device::registers::{is_sleep, with_byte};
use device::{Device, Stage};

// The control byte.
#[tactic(auto, unfolding(crate::specs::Write::after_control))]
fn after_control(byte: u8, d: Device) -> Device
    ensures { result ≡ after_control byte d }
{
    if d.chip.is_legal(byte) {
        Device {
            stage: Stage::Data,
            control: byte,
            ..d
        }
    } else {
        d.with_stage(Stage::Unselected)
    }
}

#[tactic(auto, unfolding(crate::specs::Write::new_byte))]
fn new_byte(byte: u8, d: Device) -> u8
    ensures { result ≡ new_byte byte d }
{
    let at = d.chip.register(d.control);
    d.chip.stored(at, d.held(at as usize), byte)
}

#[tactic(auto, unfolding(crate::specs::Write::effective_after_data))]
fn effective_after_data(byte: u8, d: Device) -> [u8; 28]
    ensures { result ≡ effective_after_data byte d }
{
    if d.chip.is_buffered(d.pointer()) && d.is_awake() && d.is_och() {
        with_byte(d.effective, d.pointer(), new_byte(byte, d))
    } else {
        d.effective
    }
}

#[tactic(auto, unfolding(crate::specs::Write::wakes))]
fn wakes(byte: u8, d: Device) -> bool
    ensures { result ≡ wakes byte d }
{
    d.chip.is_driver() && d.pointer() == chip::MODE1 as usize && d.is_asleep() && !is_sleep(byte)
}

#[tactic(auto, unfolding(crate::specs::Write::count_after_data))]
fn count_after_data(byte: u8, d: Device) -> u64
    ensures { result ≡ count_after_data byte d }
{
    if wakes(byte, d) { 0 } else { d.count }
}

// A data byte.
#[tactic(auto, unfolding(crate::specs::Write::after_data))]
fn after_data(byte: u8, d: Device) -> Device
    ensures { result ≡ after_data byte d }
{
    let written = with_byte(d.written, d.pointer(), new_byte(byte, d));
    let effective = effective_after_data(byte, d);
    Device {
        written,
        effective,
        count: count_after_data(byte, d),
        control: d.chip.moved(d.control),
        ..d
    }
}

// Whether byte is the one that the software reset call waits for.
fn is_call_byte(due: u8, byte: u8, d: Device) -> bool
    ensures { result ≡ is_call_byte due byte d }
{
    d.chip.is_driver() && byte == due
}

fn after_call_byte(due: u8, byte: u8, d: Device, next: Stage) -> Device
    ensures { result ≡ with_stage d (cond (is_call_byte due byte d) next Unselected) }
{
    let stage = if is_call_byte(due, byte, d) {
        next
    } else {
        Stage::Unselected
    };
    d.with_stage(stage)
}

#[tactic(auto, unfolding(crate::specs::Write::after_byte))]
pub fn after_byte(byte: u8, d: Device) -> Device
    ensures { result ≡ after_byte byte d }
{
    match d.stage {
        Stage::Unselected | Stage::Talking => d,
        Stage::Control => after_control(byte, d),
        Stage::Data => after_data(byte, d),
        Stage::ResetCall => after_call_byte(0xA5, byte, d, Stage::ResetFirst),
        Stage::ResetFirst => after_call_byte(0x5A, byte, d, Stage::ResetBoth),
        Stage::ResetBoth => d.with_stage(Stage::Unselected),
    }
}

#[tactic(auto, unfolding(crate::specs::Write::acks_data))]
pub fn acks(byte: u8, d: Device) -> bool
    ensures { result ≡ acks_data byte d }
{
    match d.stage {
        Stage::Control => d.chip.is_legal(byte),
        Stage::Data => true,
        Stage::ResetCall => is_call_byte(0xA5, byte, d),
        Stage::ResetFirst => is_call_byte(0x5A, byte, d),
        Stage::Unselected | Stage::Talking | Stage::ResetBoth => false,
    }
}
