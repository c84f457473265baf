// The calls on a bus. Each judges the bus that it is handed and asks nothing of its caller.
ghost use Rattle.std.specs.Prelude.{◌≡◌};
ghost use Rattle.bus.specs.declared.Change.TheVariants as C;
ghost use Rattle.bus.specs.declared.Event.TheVariants as E;
ghost use Rattle.bus.specs.declared.Question.TheVariants as Q;
ghost use Rattle.bus.specs.declared.SignalEvent.TheVariants as S;
ghost use Rattle.bus.specs.Place.{blink_reply};
ghost use Rattle.bus.specs.Units.{wait_for_reply, lit_for_reply};
ghost use Rattle.bus.specs.Events.{step_reply, numbered_reply};

use crate::{Bus, Change, Event, Judged, Question, Reply, SignalEvent, event_numbered};
use lamp::Unit;

pub fn step(bus: Bus, event: Event) -> Reply
    ensures { result ≡ step_reply bus event }
{
    Judged::new(bus).step(event)
}

// ---- events by name

pub fn add(bus: Bus, chip: u64, address: u64) -> Reply
    ensures { result ≡ step_reply bus (E.Add chip address) }
{
    step(
        bus,
        Event::Add {
            chip,
            addr: address,
        },
    )
}

pub fn start(bus: Bus) -> Reply
    ensures { result ≡ step_reply bus (E.Signal S.Start) }
{
    step(bus, Event::Signal(SignalEvent::Start))
}

pub fn stop(bus: Bus) -> Reply
    ensures { result ≡ step_reply bus (E.Signal S.Stop) }
{
    step(bus, Event::Signal(SignalEvent::Stop))
}

pub fn put(bus: Bus, byte: u64) -> Reply
    ensures { result ≡ step_reply bus (E.Signal (S.Put byte)) }
{
    step(bus, Event::Signal(SignalEvent::Put(byte)))
}

pub fn get(bus: Bus, ack: u64) -> Reply
    ensures { result ≡ step_reply bus (E.Signal (S.Get ack)) }
{
    step(bus, Event::Signal(SignalEvent::Get(ack)))
}

pub fn wait(bus: Bus, dev: u64, ticks: u64) -> Reply
    ensures { result ≡ step_reply bus (E.Change dev (C.Wait ticks)) }
{
    step(
        bus,
        Event::Change {
            dev,
            change: Change::Wait(ticks),
        },
    )
}

pub fn oe(bus: Bus, dev: u64, level: u64) -> Reply
    ensures { result ≡ step_reply bus (E.Change dev (C.Oe level)) }
{
    step(
        bus,
        Event::Change {
            dev,
            change: Change::Oe(level),
        },
    )
}

pub fn ext(bus: Bus, dev: u64, level: u64) -> Reply
    ensures { result ≡ step_reply bus (E.Change dev (C.Ext level)) }
{
    step(
        bus,
        Event::Change {
            dev,
            change: Change::Ext(level),
        },
    )
}

pub fn reset(bus: Bus, dev: u64) -> Reply
    ensures { result ≡ step_reply bus (E.Change dev C.Reset) }
{
    step(
        bus,
        Event::Change {
            dev,
            change: Change::Reset,
        },
    )
}

pub fn lit(bus: Bus, dev: u64, out: u64, ticks: u64) -> Reply
    ensures { result ≡ step_reply bus (E.Ask dev (Q.Lit out ticks)) }
{
    step(
        bus,
        Event::Ask {
            dev,
            question: Question::Lit { out, ticks },
        },
    )
}

pub fn pin(bus: Bus, dev: u64, out: u64) -> Reply
    ensures { result ≡ step_reply bus (E.Ask dev (Q.Pin out)) }
{
    step(
        bus,
        Event::Ask {
            dev,
            question: Question::Pin(out),
        },
    )
}

// For callers that have no enum.
pub fn numbered(bus: Bus, number: u64, x: u64, y: u64, z: u64) -> Reply
    ensures { result ≡ numbered_reply bus number x y z }
{
    Judged::new(bus).request(event_numbered(number, x, y, z))
}

// ---- beyond the events

// For ticks, which only a driver has, or for steps, which only a blinker has.
pub fn wait_for<U: Unit>(bus: Bus, dev: u64, wait: U) -> Reply
    ensures { result ≡ wait_for_reply bus dev (U.duration wait) }
{
    Judged::new(bus).wait_for(dev, wait.duration())
}

pub fn lit_for<U: Unit>(bus: Bus, dev: u64, out: u64, window: U) -> Reply
    ensures { result ≡ lit_for_reply bus dev out (U.duration window) }
{
    Judged::new(bus).lit_for(dev, out, window.duration())
}

// The steps after which both blinks of a blinker begin together again.
pub fn blink_start(bus: Bus, dev: u64) -> Reply
    ensures { result ≡ blink_reply bus dev }
{
    Judged::new(bus).blink_start(dev)
}
