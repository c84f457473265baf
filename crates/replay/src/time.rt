// The time between two stamps, and what it does to the devices of a bus.
ghost use Rattle.std.specs.Prelude.{◌≡◌, ℕ, ◌-◌, ◌%◌, ◌^◌, ◌<◌, ◌≤◌, not, ◌&&◌, length};
ghost use Rattle.basics.specs.Below.{all_below};
ghost use Rattle.totals.specs.Totals.{record_of};
ghost use Rattle.bus.specs.Devices.{record_at};
ghost use Rattle.replay.specs.Time.{between, since, fits, overruns_any, time_below, after_time};
ghost use Rattle.replay.specs.laws.Passed.{timed};

use crate::Clock;
use bus::{Bus, Judged};
use device::Device;
use lamp::{DriverTicks, Duration};
use totals::proved_callers::{exceeds, wait};

// Later minus earlier, around the roll-over: the ticks from a to b, for whatever tick counts a and b the stamps are of.
#[tactic(auto, unfolding(crate::specs::Time::between))]
pub fn elapsed(later: u32, earlier: u32) -> DriverTicks
    ensures by_index { (a b : ℕ) → a ≤ b → b - a < 2 ^ 32 → earlier ≡ a % 2 ^ 32 → later ≡ b % 2 ^ 32 → result.0 ≡ b - a }
    ensures value { result ≡ record { 0 = between later earlier } }
{
    DriverTicks(u64::from(later.wrapping_sub(earlier)))
}

// Since the last accepted entry; until one is accepted, none.
pub fn since(clock: Clock, at: u32) -> DriverTicks
    ensures { result ≡ since clock at }
{
    clock.map_or(DriverTicks(0), |last| elapsed(at, last))
}

// A driver takes the time if its count and its totals, which are lent, have room; a blinker takes none. Whether there was room.
#[tactic(auto, unfolding(totals::specs::Wait::exceeds))]
fn wait_driver(d: &mut Device, ticks: DriverTicks, lit: &mut [u64], unlit: &mut [u64]) -> bool
    requires { (length lit.old ≡ 16) × (length unlit.old ≡ 16) }
    ensures room { result ≡ fits ticks (record_of d.old lit.old unlit.old) }
    ensures after { record_of d.new lit.new unlit.new ≡ timed ticks (record_of d.old lit.old unlit.old) }
{
    let time = Duration::Ticks(ticks);
    if !d.chip.is_driver() {
        return true;
    }
    if exceeds(*d, lit, unlit, time) {
        return false;
    }
    *d = wait(*d, time, lit, unlit);
    true
}

// Every driver of a bus that has room waits, one after the other. Whether all had room.
#[tactic(auto, unfolding(crate::specs::Time::time_below, basics::specs::Below::all_below))]
fn wait_all(ticks: DriverTicks, bus: &mut Bus) -> bool
    requires { (length bus.old.devices ≡ 8) × (bus.old.count ≤ 8) }
    ensures room { result ≡ all_below bus.old.count (λ i. fits ticks (record_at bus.old i)) }
    ensures after { bus.new ≡ time_below ticks bus.old bus.old.count }
{
    let mut room = true;
    // By index: after a zip of iter_mut and chunks_exact_mut (tried) a proof knows no element of what they lent.
    for i in 0..usize::from(bus.count) {
        let start = 16 * i;
        let end = start + 16;
        room &= wait_driver(
            &mut bus.devices[i],
            ticks,
            &mut bus.lit[start..end],
            &mut bus.unlit[start..end],
        );
    }
    room
}

// The time passes where a driver has room for it; a bus that is not well formed stays. Whether every driver had room. That the devices are
// eight is asked: behind a reference a proof knows the length of an array of numbers alone.
#[tactic(auto, using(crate::proofs::laws::Alike::below_shape), unfolding(crate::specs::Time::after_time, bus::specs::Devices::bus_ok))]
pub fn pass(ticks: DriverTicks, judged: &mut Judged) -> bool
    requires { length judged.old.bus.devices ≡ 8 }
    ensures room { result ≡ not (overruns_any ticks judged.old.bus) }
    ensures after { judged.new.bus ≡ after_time ticks judged.old.bus }
{
    if !judged.ok {
        return true;
    }
    wait_all(ticks, &mut judged.bus)
}
