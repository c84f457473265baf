// Standard input: how much was read from it.
ghost use Rattle.std.specs.Prelude.{◌≡◌, ◌+◌, ◌-◌, ◌^◌, ◌<◌, ◌≤◌, ◌↔◌, IsTrue, length};
ghost use Rattle.stream.specs.Input.{nothing_read, Receives};
ghost use Rattle.stream.specs.declared.input.Status.TheVariants.{Ended, Failed};

use crate::failure::tell;
use std::io::Read;

// Whether there is more to come, all is read, or a call failed.
#[derive(Clone, Copy, Debug, PartialEq, Eq)]
pub enum Status {
    Open,
    Ended,
    Failed,
}

// How many bytes were read, and what the last read came to. Only this module makes one.
#[derive(Clone, Copy, Debug, PartialEq, Eq)]
pub struct Input {
    read: usize,
    status: Status,
}

impl Input {
    pub fn unread() -> Input
        ensures { result ≡ nothing_read }
    {
        Input {
            read: 0,
            status: Status::Open,
        }
    }

    pub fn status(self) -> Status
        ensures { result ≡ self.status }
    {
        self.status
    }

    pub fn has_ended(self) -> bool
        ensures { IsTrue result ↔ (self.status ≡ Ended) }
    {
        self.status == Status::Ended
    }

    pub fn has_failed(self) -> bool
        ensures { IsTrue result ↔ (self.status ≡ Failed) }
    {
        self.status == Status::Failed
    }

    pub fn has_less(self, most: usize) -> bool
        ensures { IsTrue result ↔ (self.read < most) }
    {
        self.read < most
    }

    // How many bytes were read since.
    pub fn since(self, before: Input) -> usize
        requires { before.read ≤ self.read }
        ensures { result ≡ self.read - before.read }
    {
        self.read - before.read
    }
}

// The one place that reads, behind the first `have` bytes; nothing at the end of the input. A read that fails is told of at once.
// `place` is how far the input is read, and only moves here: an input from before an earlier read is not taken.
pub fn receive(
    rt: &impl Eprint,
    reader: &mut impl Read,
    place: &mut usize,
    before: Input,
    have: usize,
    buf: &mut [u8],
) -> Input
    requires { (place.old ≡ before.read) × (have ≤ length buf.old) × (before.read + length buf.old < 2 ^ 64) }
    ensures receives { Receives before have buf.old result buf.new }
    ensures place_after { place.new ≡ result.read }
{
    match reader.read(&mut buf[have..]) {
        Ok(n) => {
            *place = before.read + n;
            Input {
                read: *place,
                status: if n == 0 { Status::Ended } else { Status::Open },
            }
        }
        Err(error) => {
            tell(rt, "lamptwin: input", error);
            Input {
                read: before.read,
                status: Status::Failed,
            }
        }
    }
}
