// When the two blinks of a blinker begin together again.
#![tactic(auto)]

ghost use Rattle.std.specs.Prelude.{◌≡◌, ◌≤◌, ◌<◌};
ghost use Rattle.basics.specs.Divisors.{gcd_of, lcm_of};
ghost use Rattle.blink.specs.Start.{common_start};

use lamp::BlinkerSteps;

// Euclid's algorithm; each remainder is smaller than the last.
#[tactic(auto, using(basics::specs::laws::Divisors::gcd_none, basics::specs::laws::Divisors::gcd_step))]
fn gcd(a: u64, b: u64) -> u64
    ensures { result ≡ gcd_of a b }
{
    if b == 0 { a } else { gcd(b, a % b) }
}

// The least common multiple of two numbers from 1 to 256.
#[tactic(auto, using(basics::specs::laws::Divisors::gcd_pos), unfolding(basics::specs::Divisors::lcm_of))]
fn lcm(a: u64, b: u64) -> u64
    requires { (0 < a) × (a ≤ 256) × (0 < b) × (b ≤ 256) }
    ensures value { result ≡ lcm_of a b }
    ensures upper_bound { result ≤ 65536 }
{
    a / gcd(a, b) * b
}

// The first step above 0 at which the blinks with these prescalers both begin.
#[tactic(auto, unfolding(crate::specs::Start::common_start))]
pub fn common_start(psc0: u8, psc1: u8) -> BlinkerSteps
    ensures { result.0 ≡ common_start psc0 psc1 }
{
    BlinkerSteps(256 * lcm(psc0 as u64 + 1, psc1 as u64 + 1))
}
