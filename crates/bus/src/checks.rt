// What an event is refused for: of the bus these depend only on what is named, so that a caller that keeps it in parts can ask too.
ghost use Rattle.std.specs.Prelude.{◌≡◌, IfOk, Some};
ghost use Rattle.chip.specs.Kinds.{chip_numbered};
ghost use Rattle.refusals.specs.Refusals.{code_of};
ghost use Rattle.refusals.specs.Reasons.{code_in};
ghost use Rattle.bus.specs.declared.Bus.{Bus};
ghost use Rattle.bus.specs.Devices.{bus_ok};
ghost use Rattle.bus.specs.Add.{add_refusals};
ghost use Rattle.bus.specs.Place.{place_refusals, level_refusals, is_missing, question_refusals};
ghost use Rattle.bus.specs.Signals.{signal_refusals, is_too_large};
ghost use Rattle.protocol.specs.Signals.{in_turn};
ghost use Rattle.bus.specs.Signals.{signal_of};

use crate::{Question, SignalEvent};
use chip::Chip;
use device::{Device, Phase};
use protocol::Signal;
use protocol::signals::is_open;
use refusals::{Reason, judge};

// The kind that is named, where there is nothing to refuse.
pub fn add_check(ok: bool, phase: Phase, count: u8, chip: u64, address: u64) -> Result<Chip, Reason>
    ensures code { (b : Bus) → ok ≡ bus_ok b → phase ≡ b.phase → count ≡ b.count → code_in result ≡ code_of (add_refusals b chip address) }
    ensures kind { IfOk result (λ kind. chip_numbered chip ≡ Some kind) }
{
    let found = Chip::try_from(chip).ok();
    judge(&[
        (Reason::UnknownKind, found.is_none()),
        (Reason::WrongAddress, chip::is_barred(found, address)),
        (Reason::NoPosition, 8 <= count),
        (Reason::Malformed, !ok),
        (Reason::OutOfTurn, is_open(phase)),
    ])?;
    found.ok_or(Reason::UnknownKind)
}

// Whether it is in turn does not depend on the number that comes with it.
pub fn in_turn(phase: Phase, event: SignalEvent) -> bool
    ensures { result ≡ in_turn phase (signal_of event) }
{
    let signal = match event {
        SignalEvent::Start => Signal::Start,
        SignalEvent::Stop => Signal::Stop,
        SignalEvent::Put(_) => Signal::Put(0),
        SignalEvent::Get(_) => Signal::Get(false),
    };
    protocol::signals::in_turn(phase, signal)
}

pub fn is_too_large(event: SignalEvent) -> bool
    ensures { result ≡ is_too_large event }
{
    match event {
        SignalEvent::Start | SignalEvent::Stop => false,
        SignalEvent::Put(byte) => 255 < byte,
        SignalEvent::Get(ack) => 1 < ack,
    }
}

pub fn signal_check(ok: bool, phase: Phase, event: SignalEvent) -> Result<(), Reason>
    ensures { (b : Bus) → ok ≡ bus_ok b → phase ≡ b.phase → code_in result ≡ code_of (signal_refusals b event) }
{
    judge(&[
        (Reason::Malformed, !ok),
        (Reason::OutOfTurn, !in_turn(phase, event)),
        (Reason::TooLarge, is_too_large(event)),
    ])
}

// The numbers of a position.
pub fn place_check(ok: bool, count: u8, dev: u64) -> Result<(), Reason>
    ensures { (b : Bus) → ok ≡ bus_ok b → count ≡ b.count → code_in result ≡ code_of (place_refusals b dev) }
{
    judge(&[
        (Reason::NoPosition, !(dev < count as u64 && dev < 8)),
        (Reason::Malformed, !ok),
    ])
}

pub fn level_check(most: u64, level: u64, wrong: bool) -> Result<(), Reason>
    ensures { code_in result ≡ code_of (level_refusals most level wrong) }
{
    judge(&[
        (Reason::TooLarge, most < level),
        (Reason::WrongDevice, wrong),
    ])
}

pub fn is_missing(d: Device, out: u64) -> bool
    ensures { result ≡ is_missing d out }
{
    d.chip.outputs() as u64 <= out
}

#[tactic(auto, unfolding(crate::specs::Place::question_refusals))]
pub fn question_check(d: Device, question: Question) -> Result<(), Reason>
    ensures { code_in result ≡ code_of (question_refusals d question) }
{
    match question {
        Question::Lit { out, ticks } => judge(&[
            (
                Reason::PastLimit,
                d.is_too_long(device::wait::own_duration(d.chip, ticks)),
            ),
            (Reason::NoOutput, is_missing(d, out)),
        ]),
        Question::Pin(out) => judge(&[(Reason::NoOutput, is_missing(d, out))]),
    }
}
