// What a STOP does.
ghost use Rattle.std.specs.Prelude.{◌≡◌};
ghost use Rattle.chip.specs.Kinds.{outputs_of};
ghost use Rattle.protocol.specs.Stop.{committed, after_commit, took_reset, after_stop};

use chip::Chip;
use device::{Device, Stage};

fn took_reset(d: Device) -> bool
    ensures { result ≡ took_reset d.stage }
{
    d.stage == Stage::ResetBoth
}

// The copy in effect after a commit.
#[tactic(auto, unfolding(crate::specs::Stop::committed))]
fn committed(chip: Chip, written: [u8; 28], effective: [u8; 28]) -> [u8; 28]
    ensures { result ≡ committed (outputs_of chip) written effective }
{
    let mut next = effective;
    for i in chip::PWM0 as usize..chip.register_map().subadr1 as usize {
        next[i] = written[i];
    }
    next
}

#[tactic(auto, unfolding(crate::specs::Stop::after_commit))]
fn after_commit(d: Device) -> Device
    ensures { result ≡ after_commit d }
{
    if d.chip.is_driver() && d.is_awake() {
        let effective = committed(d.chip, d.written, d.effective);
        Device { effective, ..d }
    } else {
        d
    }
}

#[tactic(auto, unfolding(crate::specs::Stop::after_stop))]
pub fn after_stop(d: Device) -> Device
    ensures { result ≡ after_stop d }
{
    if d.chip.is_driver() && took_reset(d) {
        d.after_reset()
    } else {
        after_commit(d).with_stage(Stage::Unselected)
    }
}
