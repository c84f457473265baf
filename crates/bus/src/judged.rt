// A bus, and whether it is well formed: who carries both along need not judge the bus at every event.
ghost use Rattle.std.specs.Prelude.{◌≡◌};
ghost use Rattle.bus.specs.Devices.{bus_ok};

use crate::{Bus, Event, Reply, devices, refused_for};
use refusals::Reason;

#[derive(Clone, Copy)]
pub struct Judged {
    pub ok: bool,
    pub bus: Bus,
    ghost judged: { ok ≡ bus_ok bus },
}

impl Judged {
    ghost use Rattle.bus.specs.Events.{step_reply, request_reply};

    pub fn new(bus: Bus) -> Judged
        ensures { result.bus ≡ bus }
    {
        Judged {
            ok: devices::is_ok(bus),
            bus,
        }
    }

    pub fn step(&self, event: Event) -> Reply
        ensures { result ≡ step_reply self.now.bus event }
    {
        match event {
            Event::Add { chip, addr } => self.add(chip, addr),
            Event::Signal(signal) => self.signal(signal),
            Event::Change { dev, change } => self.change(dev, change),
            Event::Ask { dev, question } => self.ask(dev, question),
        }
    }

    // What names no event is refused.
    pub fn request(&self, request: Option<Event>) -> Reply
        ensures { result ≡ request_reply self.now.bus request }
    {
        match request {
            Some(event) => self.step(event),
            None => refused_for(self.bus, Reason::Malformed),
        }
    }
}
