// The totals of a device after a wait that they leave room for, driver and blinker each in its own unit.
ghost use Rattle.std.specs.Prelude.{◌≡◌, ℕ, true, false, ◌+◌, ◌-◌, ◌/◌, ◌<◌, ◌≤◌, length, get_or};
ghost use Rattle.chip.specs.Kinds.{is_driver, outputs_of};
ghost use Rattle.lamp.specs.laws.Shared.{Fits, shared_lit};
ghost use Rattle.chip.specs.Registers.{pwm0};
ghost use Rattle.device.specs.Output.{pair_of, ls_of, lit_of};
ghost use Rattle.totals.specs.Totals.{total_limit, record_of, totals_within, raised};
ghost use Rattle.totals.specs.Wait.{exceeds_for, waited_for};
ghost use Rattle.totals.specs.laws.Wait.{lits_of};

use crate::limits::outputs;
use device::Device;
use lamp::proved_callers::{rest, shared_lit, sum};
use lamp::{BlinkerSteps, DriverTicks, Duration, Mode, Unit};

// An output's two totals after a wait of which it was lit so long.
fn grown<U: Unit>(lit: u64, unlit: u64, wait: U, on: U) -> (u64, u64)
    requires part { U.count on ≤ U.count wait }
    requires room { (lit + U.count on ≤ total_limit) × (unlit + (U.count wait - U.count on) ≤ total_limit) }
    ensures lit_after { result.0 ≡ lit + U.count on }
    ensures unlit_after { result.1 ≡ unlit + (U.count wait - U.count on) }
{
    let off = rest(wait, on);
    (sum(U::of(lit), on).count(), sum(U::of(unlit), off).count())
}

// Raises the totals of each output, which is lit of the wait for as long as `on` gives it.
fn raise<U: Unit, F: Fn(usize) -> U>(d: Device, wait: U, on: F, lit: &mut [u64], unlit: &mut [u64])
    requires long { (length lit.old ≡ 16) × (length unlit.old ≡ 16) }
    requires room { totals_within (outputs_of d.chip) lit.old unlit.old (U.count wait) ≡ true }
    requires given { (out : ℕ) → out < outputs_of d.chip → F.pre on out }
    requires right { (out : ℕ) (x : U) → out < outputs_of d.chip → F.post on out x → U.count x ≡ lit_of d out (U.count wait) }
    ensures lit_after { lit.new ≡ raised (outputs_of d.chip) (λ out. lit_of d out (U.count wait)) lit.old }
    ensures unlit_after { unlit.new ≡ raised (outputs_of d.chip) (λ out. U.count wait - lit_of d out (U.count wait)) unlit.old }
{
    // by index, which `on` takes and which is the same in both
    for i in 0..outputs(d.chip) {
        (lit[i], unlit[i]) = grown(lit[i], unlit[i], wait, on(i));
    }
}

// What does not depend on the output is computed once.
fn driver_raise(d: Device, ticks: DriverTicks, lit: &mut [u64], unlit: &mut [u64])
    requires { (length lit.old ≡ 16) × (length unlit.old ≡ 16) × (is_driver d.chip ≡ true) × (totals_within (outputs_of d.chip) lit.old unlit.old ticks.0 ≡ true) }
    ensures lit_after { lit.new ≡ raised (outputs_of d.chip) (λ out. lit_of d out ticks.0) lit.old }
    ensures unlit_after { unlit.new ≡ raised (outputs_of d.chip) (λ out. ticks.0 - lit_of d out ticks.0) unlit.old }
{
    let shared = d.driver_shared(ticks);
    let ledout0 = d.chip.register_map().ledout0 as usize;
    let on = |out: usize| -> DriverTicks
        requires { (out < 16) × (ledout0 ≤ 20) × ((ledout : ℕ) → Fits ledout shared) }
        ensures value { result.0 ≡ shared_lit (pair_of (get_or d.effective (ledout0 + out / 4) 0) out) (get_or d.effective (pwm0 + out) 0) shared }
        ensures pwm_bound { get_or d.effective (pwm0 + out) 0 < 256 }
    {
        let ledout = device::output::pair(d.effective[ledout0 + out / 4], out as u8);
        shared_lit(ledout, d.effective[chip::PWM0 as usize + out], shared)
    };
    raise(d, ticks, on, lit, unlit)
}

// The lit steps of a blinker's output, for each value of its two LS bits.
fn lits_of(d: Device, steps: BlinkerSteps) -> [BlinkerSteps; 4]
    ensures { result ≡ lits_of d steps.0 }
{
    let lit_by = |ls: u8| d.blinker_by(ls).lit_for(BlinkerSteps(d.count), steps);
    [lit_by(0), lit_by(1), lit_by(2), lit_by(3)]
}

// What does not depend on the output but by its LS bits is computed once.
fn blinker_raise(d: Device, steps: BlinkerSteps, lit: &mut [u64], unlit: &mut [u64])
    requires { (length lit.old ≡ 16) × (length unlit.old ≡ 16) × (is_driver d.chip ≡ false) × (totals_within (outputs_of d.chip) lit.old unlit.old steps.0 ≡ true) }
    ensures lit_after { lit.new ≡ raised (outputs_of d.chip) (λ out. lit_of d out steps.0) lit.old }
    ensures unlit_after { unlit.new ≡ raised (outputs_of d.chip) (λ out. steps.0 - lit_of d out steps.0) unlit.old }
{
    let by_bits = lits_of(d, steps);
    let on = |out: usize| -> BlinkerSteps
        requires { (out < 256) × (length by_bits ≡ 4) }
        ensures { result ≡ get_or by_bits (ls_of d out) result }
    { by_bits[d.ls_of(out as u8) as usize] };
    raise(d, steps, on, lit, unlit)
}

// A wait that exceeds nothing: the device afterwards, and its totals where they are lent.
#[tactic(auto, unfolding(crate::specs::Wait::waited))]
pub fn wait(d: Device, duration: Duration, lit: &mut [u64], unlit: &mut [u64]) -> Device
    requires { (length lit.old ≡ 16) × (length unlit.old ≡ 16) × (exceeds_for (record_of d lit.old unlit.old) duration ≡ false) }
    ensures { record_of result lit.new unlit.new ≡ waited_for (record_of d lit.old unlit.old) duration }
{
    if !device::wait::is_own(d.chip, duration) {
        return d;
    }
    match duration {
        Duration::Ticks(ticks) => {
            driver_raise(d, ticks, lit, unlit);
            d.after_wait(ticks)
        }
        Duration::Steps(steps) => {
            blinker_raise(d, steps, lit, unlit);
            d.after_wait(steps)
        }
    }
}
