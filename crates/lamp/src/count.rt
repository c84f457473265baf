// The lit ticks among the first x. They are counted by whole periods and a remainder, so that 2 ^ 47 ticks cost no more than ten.
ghost use Rattle.std.specs.Prelude.{◌≡◌, ◌≤◌, ◌<◌};
ghost use Rattle.lamp.specs.Window.{lit_ticks};
ghost use Rattle.lamp.specs.Blinker.{lit_below};
ghost use Rattle.lamp.specs.laws.Count.{duty_count};

// Lit for the first `on` ticks of each `period`.
#[tactic(auto, unfolding(crate::specs::laws::Count::duty_count))]
pub fn duty(period: u64, on: u64, x: u64) -> u64
    requires { (0 < period) × (on ≤ period) }
    ensures { result ≡ duty_count period on x }
{
    x / period * on + on.min(x % period)
}

// The lit ones of each 256, at brightness pwm.
pub fn individual(pwm: u8, x: u64) -> u64
    ensures { result ≡ duty_count 256 pwm x }
{
    duty(256, pwm as u64, x)
}

// A blinker's output in the sense of the PCA9531: the prescaler makes one step of psc + 1 ticks, and 256 steps are the period.
pub fn lit_below(psc: u8, pwm: u8, x: u64) -> u64
    ensures { result ≡ lit_ticks (lit_below psc pwm) 0 x }
{
    let step = psc as u64 + 1;
    duty(256 * step, pwm as u64 * step, x)
}
