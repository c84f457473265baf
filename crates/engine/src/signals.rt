// A signal on the lent devices. A device that it leaves as it is is not touched.
ghost use Rattle.std.specs.Prelude.{◌≡◌, ◌≤◌, length};
ghost use Rattle.basics.specs.Bits.{mask_first};
ghost use Rattle.basics.specs.First.{and_first};
ghost use Rattle.device.specs.Fields.{with_stage};
ghost use Rattle.protocol.specs.Signals.{after_signal};
ghost use Rattle.protocol.specs.Put.{is_selected, after_put, acks_to};
ghost use Rattle.protocol.specs.Read.{talk_of, after_get};
ghost use Rattle.protocol.specs.Stop.{after_stop};
ghost use Rattle.bus.specs.Devices.{bus_after};
ghost use Rattle.engine.specs.Lens.{device_of, lent_device, IsSameDevice, lent_bus, IsSameLoan};
ghost use Rattle.engine.specs.Signals.{acks_at, talks_at};
ghost use Rattle.device.specs.declared.Phase.TheVariants as P;

use crate::lens::{load, part, stage_byte, stage_of, store};
use crate::{Lent, LentDevice};
use chip::Chip;
use device::{Device, Phase, Stage};
use protocol::Signal;

// What a device answers a signal with: whether it acknowledges, and the byte that it talks, 255 where it does not.
#[derive(Clone, Copy)]
pub struct Response {
    pub acks: bool,
    pub talk: u8,
}

// Most signals get none.
const SILENCE: Response = Response {
    acks: false,
    talk: 255,
};

impl LentDevice<'_> {
    fn load(&self) -> Device
        ensures { result ≡ lent_device self.now }
    {
        load(self.bytes, *self.count)
    }

    fn store(&mut self, d: Device)
        ensures loan { IsSameDevice self.old self.new }
        ensures device { lent_device self.new ≡ d }
    {
        store(d, self.bytes);
        *self.count = d.count;
    }

    // The stage alone.
    #[tactic(auto, using(crate::specs::laws::Signals::stage_put, crate::specs::laws::Lens::stage_back))]
    fn set_stage(&mut self, stage: Stage)
        ensures loan { IsSameDevice self.old self.new }
        ensures device { lent_device self.new ≡ with_stage (lent_device self.old) stage }
    {
        self.bytes[1] = stage_byte(stage);
    }

    // One that is not takes no byte of a write and talks none.
    #[tactic(auto, unfolding(crate::specs::Lens::device_of))]
    fn is_selected(&self) -> bool
        ensures { result ≡ is_selected (lent_device self.now).stage }
    {
        protocol::put::is_selected(stage_of(self.bytes[1]))
    }

    #[tactic(auto, unfolding(protocol::specs::Put::after_put, protocol::specs::Put::acks_to))]
    fn put_address(&mut self, byte: u8) -> bool
        ensures loan { IsSameDevice self.old self.new }
        ensures device { lent_device self.new ≡ after_put P.Address byte (lent_device self.old) }
        ensures acks { result ≡ acks_to P.Address byte (lent_device self.old) }
    {
        let stage = protocol::selection::stage_after_address(self.load(), byte);
        self.set_stage(stage);
        protocol::put::is_selected(stage)
    }

    #[tactic(auto, using(crate::specs::laws::Signals::skip_byte, crate::specs::laws::Signals::skip_acks), unfolding(protocol::specs::Put::after_put, protocol::specs::Put::acks_to))]
    fn put_byte(&mut self, byte: u8) -> bool
        ensures loan { IsSameDevice self.old self.new }
        ensures device { lent_device self.new ≡ after_put P.Write byte (lent_device self.old) }
        ensures acks { result ≡ acks_to P.Write byte (lent_device self.old) }
    {
        if !self.is_selected() {
            return false;
        }
        let d = self.load();
        self.store(protocol::write::after_byte(byte, d));
        protocol::write::acks(byte, d)
    }

    #[tactic(auto, unfolding(protocol::specs::Put::after_put, protocol::specs::Put::acks_to))]
    fn put(&mut self, phase: Phase, byte: u8) -> bool
        ensures loan { IsSameDevice self.old self.new }
        ensures device { lent_device self.new ≡ after_put phase byte (lent_device self.old) }
        ensures acks { result ≡ acks_to phase byte (lent_device self.old) }
    {
        match phase {
            Phase::Address => self.put_address(byte),
            Phase::Write => self.put_byte(byte),
            Phase::Idle | Phase::Read | Phase::Ended => false,
        }
    }

    #[tactic(auto, using(crate::specs::laws::Signals::skip_get, crate::specs::laws::Signals::skip_talk))]
    fn get(&mut self, ack: bool) -> u8
        ensures loan { IsSameDevice self.old self.new }
        ensures device { lent_device self.new ≡ after_get ack (lent_device self.old) }
        ensures talk { result ≡ talk_of (lent_device self.old) }
    {
        if !self.is_selected() {
            return 255;
        }
        let d = self.load();
        self.store(protocol::read::after_get(ack, d));
        protocol::read::talk(d)
    }

    // A blinker only forgets its stage.
    #[tactic(auto, using(crate::specs::laws::Signals::blinker_stop, crate::specs::laws::Lens::chip_there))]
    fn stop(&mut self)
        ensures loan { IsSameDevice self.old self.new }
        ensures device { lent_device self.new ≡ after_stop (lent_device self.old) }
    {
        if Chip::of_kind(self.bytes[0]).is_driver() {
            self.store(protocol::stop::after_stop(self.load()));
        } else {
            self.set_stage(Stage::Unselected);
        }
    }

    #[tactic(auto, unfolding(protocol::specs::Signals::after_signal, crate::specs::Signals::acks_at, crate::specs::Signals::talks_at))]
    fn signal(&mut self, phase: Phase, signal: Signal) -> Response
        ensures loan { IsSameDevice self.old self.new }
        ensures device { lent_device self.new ≡ after_signal phase signal (lent_device self.old) }
        ensures acks { result.acks ≡ acks_at phase signal (lent_device self.old) }
        ensures talk { result.talk ≡ talks_at signal (lent_device self.old) }
    {
        match signal {
            Signal::Start => {
                self.set_stage(Stage::Unselected);
                SILENCE
            }
            Signal::Stop => {
                self.stop();
                SILENCE
            }
            Signal::Put(byte) => Response {
                acks: self.put(phase, byte),
                ..SILENCE
            },
            Signal::Get(ack) => Response {
                talk: self.get(ack),
                ..SILENCE
            },
        }
    }
}

// The loop below calls this: where it makes the `LentDevice` itself, the check loses the length of the counts.
pub fn signal_one(phase: Phase, signal: Signal, bytes: &mut [u8], count: &mut u64) -> Response
    requires { length bytes.old ≡ 64 }
    ensures device { device_of bytes.new count.new ≡ after_signal phase signal (device_of bytes.old count.old) }
    ensures acks { result.acks ≡ acks_at phase signal (device_of bytes.old count.old) }
    ensures talk { result.talk ≡ talks_at signal (device_of bytes.old count.old) }
{
    LentDevice { bytes, count }.signal(phase, signal)
}

// What all devices answer: the set of those that acknowledge, and the AND of all that talk.
#[derive(Clone, Copy)]
pub struct Responses {
    pub acks: u64,
    pub byte: u8,
}

impl Lent<'_> {
    // The signal at each device, by its position: of a slice that `chunks_exact_mut` has lent nothing is known but its length.
    pub(crate) fn signal(&mut self, signal: Signal) -> Responses
        requires { self.old.count ≤ 8 }
        ensures loan { IsSameLoan self.old self.new }
        ensures bus { lent_bus self.new ≡ bus_after signal (lent_bus self.old) }
        ensures acks { result.acks ≡ mask_first self.old.count (acks_at self.old.phase signal) (lent_bus self.old).devices }
        ensures byte { result.byte ≡ and_first self.old.count (talks_at signal) (lent_bus self.old).devices }
    {
        let phase = self.phase;
        let bytes = &mut *self.bytes;
        let counts = &mut *self.counts;
        let mut acks = 0;
        let mut byte = 255;
        for i in 0..self.count as usize {
            let response = signal_one(phase, signal, &mut bytes[part::<64>(i)], &mut counts[i]);
            acks |= u64::from(response.acks) << i;
            byte &= response.talk;
        }
        self.phase = protocol::signals::phase_after_signal(phase, signal);
        Responses { acks, byte }
    }
}
