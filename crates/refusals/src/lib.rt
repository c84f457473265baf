// Why a call is refused, and the number of a refusal: the least of those that hold.
#![tactic(auto)]

mod verdict;

pub use verdict::{judge, least, or_refused};

// The owner's reasons, in the order of their numbers, from 1 on.
#[derive(Clone, Copy, Debug, PartialEq, Eq)]
pub enum Reason {
    UnknownKind,
    WrongAddress,
    NoPosition,
    Malformed,
    OutOfTurn,
    PastLimit,
    TooLarge,
    NoRoom,
    NoOutput,
    WrongDevice,
    NoVersion,
    StoreFull,
}

impl From<Reason> for u64 {
    ghost use Rattle.std.specs.Prelude.{◌≡◌};
    ghost use Rattle.refusals.specs.Reasons.{number};

    ghost from_gives = { λ reason n. n ≡ number reason };

    fn from(reason: Reason) -> u64 {
        reason as u64 + 1
    }
}
