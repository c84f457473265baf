// The two shapes of a reply, and what a question is answered with.
ghost use Rattle.std.specs.Prelude.{◌≡◌};
ghost use Rattle.refusals.specs.Reasons.{number, code_in, value_in};
ghost use Rattle.bus.specs.Replies.{refused_with, done_with};

use crate::{Bus, Reply};
use refusals::Reason;

pub fn refused(bus: Bus, code: u64) -> Reply
    ensures { result ≡ refused_with bus code }
{
    Reply {
        code,
        value: 0,
        bus,
    }
}

pub fn refused_for(bus: Bus, reason: Reason) -> Reply
    ensures { result ≡ refused_with bus (number reason) }
{
    refused(bus, u64::from(reason))
}

pub fn done(value: u64, bus: Bus) -> Reply
    ensures { result ≡ done_with value bus }
{
    Reply {
        code: 0,
        value,
        bus,
    }
}

// The bus stays as it was.
pub fn answered(answer: Result<u64, Reason>, bus: Bus) -> Reply
    ensures { result ≡ record { code = code_in answer; value = value_in answer; bus = bus } }
{
    match answer {
        Ok(value) => done(value, bus),
        Err(reason) => refused_for(bus, reason),
    }
}
