// One entry: the time since the last accepted one, and then its event.
ghost use Rattle.std.specs.Prelude.{◌≡◌};
ghost use Rattle.bus.specs.Devices.{bus_ok};
ghost use Rattle.replay.specs.Replay.{timed_reply, replayed};

use crate::time::{pass, since};
use crate::{Clock, Entry, Replayed};
use bus::{Bus, Event, Judged, Reply};
use lamp::DriverTicks;
use refusals::{Reason, or_refused};

// Time and event are refused together, by the least number, and then neither happens.
fn timed(ticks: DriverTicks, judged: Judged, event: Event) -> Reply
    ensures { result ≡ timed_reply ticks judged.bus event }
{
    let mut after = judged;
    let room = pass(ticks, &mut after);
    let reply = after.step(event);
    let code = or_refused(reply.code, u64::from(Reason::PastLimit), !room);
    if code == 0 {
        reply
    } else {
        bus::refused(judged.bus, code)
    }
}

// An entry that is refused leaves the clock.
#[tactic(auto, unfolding(crate::specs::Replay::replayed))]
pub fn step_judged(judged: Judged, clock: Clock, entry: Option<Entry>) -> Replayed
    ensures { result ≡ replayed judged.bus clock entry }
{
    match entry {
        Some(Entry { at, event }) => {
            let reply = timed(since(clock, at), judged, event);
            let clock = if reply.code == 0 { Some(at) } else { clock };
            Replayed { reply, clock }
        }
        None => Replayed {
            reply: bus::refused_for(judged.bus, Reason::Malformed),
            clock,
        },
    }
}

pub fn step_of(ok: bool, bus: Bus, clock: Clock, entry: Option<Entry>) -> Replayed
    requires { ok ≡ bus_ok bus }
    ensures { result ≡ replayed bus clock entry }
{
    step_judged(Judged { ok, bus }, clock, entry)
}

pub fn step(bus: Bus, clock: Clock, entry: Option<Entry>) -> Replayed
    ensures { result ≡ replayed bus clock entry }
{
    step_judged(Judged::new(bus), clock, entry)
}
