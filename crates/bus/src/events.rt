// Events by their number.
ghost use Rattle.std.specs.Prelude.{◌≡◌};
ghost use Rattle.bus.specs.Events.{event_numbered};

use crate::{Change, Event, Question, SignalEvent};

// 1 add, 2 start, 3 put, 4 get, 5 stop, 6 wait, 7 oe, 8 ext, 9 reset, 10 lit, 11 pin.
#[tactic(auto, unfolding(crate::specs::Events::event_numbered))]
pub fn event_numbered(number: u64, x: u64, y: u64, z: u64) -> Option<Event>
    ensures { result ≡ event_numbered number x y z }
{
    match number {
        1 => Some(Event::Add { chip: x, addr: y }),
        2 => Some(Event::Signal(SignalEvent::Start)),
        3 => Some(Event::Signal(SignalEvent::Put(x))),
        4 => Some(Event::Signal(SignalEvent::Get(x))),
        5 => Some(Event::Signal(SignalEvent::Stop)),
        6 => Some(Event::Change {
            dev: x,
            change: Change::Wait(y),
        }),
        7 => Some(Event::Change {
            dev: x,
            change: Change::Oe(y),
        }),
        8 => Some(Event::Change {
            dev: x,
            change: Change::Ext(y),
        }),
        9 => Some(Event::Change {
            dev: x,
            change: Change::Reset,
        }),
        10 => Some(Event::Ask {
            dev: x,
            question: Question::Lit { out: y, ticks: z },
        }),
        11 => Some(Event::Ask {
            dev: x,
            question: Question::Pin(y),
        }),
        _ => None,
    }
}
