// Events on a row.
ghost use Rattle.std.specs.Prelude.{◌≡◌, IfOk};
ghost use Rattle.device.specs.declared.Phase.TheVariants.{Idle};
ghost use Rattle.bus.specs.declared.SignalEvent.TheVariants.{Start, Stop, Put};
ghost use Rattle.row_cases.specs.Chain.{next_of};

use crate::records;
use bus::SignalEvent;
use cases::line::Answer;
use chip::Chip;
use device::{Device, Phase};
use row::{RowReply, Rowed};
use std::{fmt, io};
use totals::Record;

fn name(phase: Phase) -> &'static str {
    match phase {
        Phase::Idle => "idle",
        Phase::Address => "address",
        Phase::Write => "write",
        Phase::Read => "read",
        Phase::Ended => "ended",
    }
}

#[derive(Clone, Copy)]
struct Named(SignalEvent);

impl fmt::Display for Named {
    fn fmt<W: fmt::Write>(&self, f: &mut fmt::Formatter<W>) -> fmt::Result {
        match self.0 {
            SignalEvent::Start => f.write_str("start"),
            SignalEvent::Stop => f.write_str("stop"),
            SignalEvent::Put(byte) => write!(f, "put {byte}"),
            SignalEvent::Get(ack) => write!(f, "get {ack}"),
        }
    }
}

// Nine records with no message.
pub fn idle(records: [Record; 9]) -> Rowed
    ensures { result ≡ record { records = records; reply = record { code = 0; value = 0; phase = Idle } } }
{
    let reply = RowReply {
        code: 0,
        value: 0,
        phase: Phase::Idle,
    };
    Rowed { records, reply }
}

// What is handed in and what comes back, with the control byte of the first record.
pub fn event(rt: &impl Print, r: Rowed, n: usize, event: SignalEvent) -> io::Result<Rowed>
    ensures { IfOk result (λ next. next ≡ next_of r n event) }
{
    let before = r.reply.phase;
    let next = row::event_of(r.records, n, before, event);
    let RowReply { code, value, phase } = next.reply;
    let control = next.records[0].device.control;
    print!(rt; "row of {n} in {}, {}: ", name(before), Named(event))?;
    print!(rt; "{} phase={}", Answer { code, value }, name(phase))?;
    println!(rt; " control={control:02x}")?;
    Ok(next)
}

// A message of one byte, which is the address.
fn message(rt: &impl Print, r: Rowed, n: usize, byte: u64) -> io::Result<Rowed>
    ensures { IfOk result (λ next. next ≡ next_of (next_of (next_of r n Start) n (Put byte)) n Stop) }
{
    let r = event(rt, r, n, SignalEvent::Start)?;
    let r = event(rt, r, n, SignalEvent::Put(byte))?;
    event(rt, r, n, SignalEvent::Stop)
}

// A PCA9635 and a PCA9531, then only PCA9635s; each event on the row that the one before left.
fn rows(rt: &impl Print, records: [Record; 9]) -> io::Result<()> {
    let r = event(rt, idle(records), 2, SignalEvent::Put(32))?;
    let r = event(rt, r, 2, SignalEvent::Start)?;
    let selected = event(rt, r, 2, SignalEvent::Put(32))?;
    let mut r = selected;
    for next in [
        SignalEvent::Put(256),
        SignalEvent::Put(129),
        SignalEvent::Start,
        SignalEvent::Put(33),
        SignalEvent::Get(1),
        SignalEvent::Get(2),
        SignalEvent::Stop,
    ] {
        r = event(rt, r, 2, next)?;
    }
    for (n, byte) in [(2, 196), (0, 32), (8, 32)] {
        r = message(rt, r, n, byte)?;
    }
    for n in [9, 10] {
        r = event(rt, r, n, SignalEvent::Start)?;
    }
    print!(rt; "one listening, ")?;
    event(rt, idle(selected.records), 2, SignalEvent::Start)?;
    Ok(())
}

fn illegal_control(rt: &impl Print, records: [Record; 9]) -> io::Result<()> {
    let mut next = records;
    next[0].device.control = 0x20;
    print!(rt; "one illegal, ")?;
    event(rt, idle(next), 2, SignalEvent::Start)?;
    Ok(())
}

pub fn run(rt: &impl Print) -> io::Result<()> {
    let mut records = [records::of(Device::fresh(Chip::Pca9635, 16)); 9];
    records[1] = records::of(Device::fresh(Chip::Pca9531, 2));
    rows(rt, records)?;
    illegal_control(rt, records)
}
