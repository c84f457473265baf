// When an output of a blinker is lit, and for how many steps.
ghost use Rattle.std.specs.Prelude.{◌≡◌};
ghost use Rattle.lamp.specs.Blinker.{step_count, blinker_lit};

use crate::{BlinkerMode, BlinkerSteps, Mode, count};

// The rules' step count c, with the prescaler of a blinker's output.
fn step_count(psc: u8, at: u64) -> u64
    ensures { result ≡ step_count psc at }
{
    at / (psc as u64 + 1) % 256
}

impl Mode for BlinkerMode {
    type Unit = BlinkerSteps;

    ghost lit = { blinker_lit };

    #[tactic(auto, unfolding(crate::specs::Blinker::blinker_lit, crate::specs::Blinker::lit_below, crate::specs::Blinker::lit_from))]
    fn is_lit(self, at: BlinkerSteps) -> bool {
        match self {
            BlinkerMode::Off => false,
            BlinkerMode::On => true,
            BlinkerMode::LitBelow { psc, pwm } => step_count(psc, at.0) < pwm as u64,
            BlinkerMode::LitFrom { psc, pwm } => pwm as u64 <= step_count(psc, at.0),
        }
    }

    #[tactic(auto, unfolding(crate::specs::Blinker::blinker_lit))]
    fn lit_before(self, end: BlinkerSteps) -> BlinkerSteps {
        let end = end.0;
        BlinkerSteps(match self {
            BlinkerMode::Off => 0,
            BlinkerMode::On => end,
            BlinkerMode::LitBelow { psc, pwm } => count::lit_below(psc, pwm, end),
            BlinkerMode::LitFrom { psc, pwm } => end - count::lit_below(psc, pwm, end),
        })
    }
}
