// The parts of a printed line.
use bus::Reply;
use refusals::Reason;
use std::fmt;

// The number of a refusal, or 0, and the value, as a line prints both.
#[derive(Clone, Copy, Debug, PartialEq, Eq)]
pub struct Answer {
    pub code: u64,
    pub value: u64,
}

impl From<Reply> for Answer {
    fn from(reply: Reply) -> Answer {
        Answer {
            code: reply.code,
            value: reply.value,
        }
    }
}

impl From<Result<u64, Reason>> for Answer {
    fn from(answer: Result<u64, Reason>) -> Answer {
        match answer {
            Ok(value) => Answer { code: 0, value },
            Err(reason) => Answer {
                code: u64::from(reason),
                value: 0,
            },
        }
    }
}

impl fmt::Display for Answer {
    fn fmt<W: fmt::Write>(&self, f: &mut fmt::Formatter<W>) -> fmt::Result {
        write!(f, "code={} value={}", self.code, self.value)
    }
}

// Bytes in hexadecimal, as the data sheets have them, with a space before each.
#[derive(Clone, Copy)]
pub struct Bytes<'a>(pub &'a [u8]);

impl fmt::Display for Bytes<'_> {
    fn fmt<W: fmt::Write>(&self, f: &mut fmt::Formatter<W>) -> fmt::Result {
        for byte in self.0 {
            write!(f, " {byte:02x}")?;
        }
        Ok(())
    }
}
