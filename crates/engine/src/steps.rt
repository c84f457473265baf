// One event on lent state: judged first, then done.
ghost use Rattle.std.specs.Prelude.{◌≡◌, ◌<◌, IfOk};
ghost use Rattle.refusals.specs.Refusals.{code_of};
ghost use Rattle.refusals.specs.Reasons.{code_in};
ghost use Rattle.bus.specs.Devices.{bus_ok};
ghost use Rattle.bus.specs.Place.{place_refusals};
ghost use Rattle.bus.specs.Events.{step_refusals, step_done, step_reply, request_reply};
ghost use Rattle.bus.specs.Replies.{done_with};
ghost use Rattle.engine.specs.Lens.{lent_bus, IsSameLoan, reply_of};
ghost use Rattle.engine.specs.Signals.{value_by};

use crate::Lent;
use crate::signals::Responses;
use bus::proved_callers::{add_check, place_check, question_check, signal_check, signal_of};
use bus::{Event, SignalEvent};
use chip::Chip;
use device::Device;
use refusals::Reason;

impl Responses {
    // The value of the event that was answered so.
    fn value(self, event: SignalEvent) -> u64
        ensures { result ≡ value_by event self.acks self.byte }
    {
        match event {
            SignalEvent::Start | SignalEvent::Stop => 0,
            SignalEvent::Put(_) => self.acks,
            SignalEvent::Get(_) => self.byte as u64,
        }
    }
}

impl Lent<'_> {
    // The position that is named, where there is nothing to refuse.
    fn place(&self, ok: bool, dev: u64) -> Result<usize, Reason>
        requires { ok ≡ bus_ok (lent_bus self.now) }
        ensures code { code_in result ≡ code_of (place_refusals (lent_bus self.now) dev) }
        ensures there { IfOk result (λ place. (place ≡ dev) × (place < 8)) }
    {
        place_check(ok, self.count, dev)?;
        Ok(dev as usize)
    }

    #[tactic(auto, unfolding(bus::specs::Events::step_refusals))]
    fn check(&self, ok: bool, event: Event) -> Result<(), Reason>
        requires { ok ≡ bus_ok (lent_bus self.now) }
        ensures { code_in result ≡ code_of (step_refusals (lent_bus self.now) event) }
    {
        match event {
            Event::Add { chip, addr } => {
                add_check(ok, self.phase, self.count, chip, addr)?;
                Ok(())
            }
            Event::Signal(signal) => signal_check(ok, self.phase, signal),
            Event::Change { dev, change } => self.change_check(self.place(ok, dev)?, change),
            Event::Ask { dev, question } => {
                question_check(self.device(self.place(ok, dev)?), question)
            }
        }
    }

    // An event that is not refused, with its value.
    #[tactic(auto, using(crate::specs::laws::Steps::acts), unfolding(bus::specs::Events::step_done))]
    pub fn act(&mut self, event: Event) -> u64
        requires { code_of (step_refusals (lent_bus self.old) event) ≡ 0 }
        ensures loan { IsSameLoan self.old self.new }
        ensures done { done_with result (lent_bus self.new) ≡ step_done (lent_bus self.old) event }
    {
        match event {
            Event::Add { chip, addr } => {
                let dev = self.count as u64;
                if let Ok(kind) = Chip::try_from(chip) {
                    self.add(Device::fresh(kind, addr as u8));
                }
                dev
            }
            Event::Signal(event) => self.signal(signal_of(event)).value(event),
            Event::Change { dev, change } => {
                self.change(dev as usize, change);
                0
            }
            Event::Ask { dev, question } => self.ask(dev as usize, question).unwrap_or(0),
        }
    }

    #[tactic(auto, using(bus::proofs::laws::Replies::answered), unfolding(bus::specs::Events::step_reply))]
    pub(crate) fn step(&mut self, ok: bool, event: Event) -> Result<u64, Reason>
        requires { ok ≡ bus_ok (lent_bus self.old) }
        ensures loan { IsSameLoan self.old self.new }
        ensures reply { reply_of result self.new ≡ step_reply (lent_bus self.old) event }
    {
        self.check(ok, event)?;
        Ok(self.act(event))
    }

    pub fn request(&mut self, ok: bool, request: Option<Event>) -> Result<u64, Reason>
        requires { ok ≡ bus_ok (lent_bus self.old) }
        ensures loan { IsSameLoan self.old self.new }
        ensures reply { reply_of result self.new ≡ request_reply (lent_bus self.old) request }
    {
        match request {
            Some(event) => self.step(ok, event),
            None => Err(Reason::Malformed),
        }
    }
}
