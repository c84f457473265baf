// For proved callers alone: what asks something of its caller. ok says whether the bus is well formed: a caller that knows it need not have
// it judged at every event.
ghost use Rattle.std.specs.Prelude.{◌≡◌};
ghost use Rattle.bus.specs.Devices.{bus_ok};
ghost use Rattle.bus.specs.Events.{step_reply, request_reply};

use bus::{Bus, Event, Reply};
use engine::Lent;
use engine::proved_callers::{load_all, store_all};

// The devices and the totals of the bus are lent to the engine and gathered again.
pub fn request_judged(ok: bool, bus: Bus, request: Option<Event>) -> Reply
    requires { ok ≡ bus_ok bus }
    ensures { result ≡ request_reply bus request }
{
    let Bus {
        phase,
        count,
        devices,
        mut lit,
        mut unlit,
    } = bus;
    let mut bytes = [0; 512];
    let mut counts = [0; 8];
    store_all(devices, &mut bytes, &mut counts);
    let mut lent = Lent {
        phase,
        count,
        bytes: &mut bytes,
        counts: &mut counts,
        lit: &mut lit,
        unlit: &mut unlit,
    };
    let answer = lent.request(ok, request);
    let Lent { phase, count, .. } = lent;
    let devices = load_all(&bytes, &counts);
    let left = Bus {
        phase,
        count,
        devices,
        lit,
        unlit,
    };
    bus::answered(answer, left)
}

pub fn step_judged(ok: bool, bus: Bus, event: Event) -> Reply
    requires { ok ≡ bus_ok bus }
    ensures { result ≡ step_reply bus event }
{
    request_judged(ok, bus, Some(event))
}
