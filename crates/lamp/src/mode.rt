// What an output follows: when it is lit, and for how long of a window.
ghost use Rattle.std.specs.Prelude.{◌≡◌, ℕ, Bool};
ghost use Rattle.lamp.specs.Window.{lit_ticks, counted_ticks};

use crate::Unit;
use crate::unit::{rest, sum};

pub trait Mode: Copy {
    // that of the chips which have such outputs
    type Unit: Unit;

    ghost lit: { Self → ℕ → Bool };

    fn is_lit(self, at: Self::Unit) -> bool
        ensures { result ≡ lit self (Self.Unit.count at) };

    // How long it is lit before a count.
    fn lit_before(self, end: Self::Unit) -> Self::Unit
        ensures { Self.Unit.count result ≡ lit_ticks (lit self) 0 (Self.Unit.count end) };

    // How long it is lit in a window.
    #[tactic(auto, using(crate::proofs::laws::Count::grows, crate::proofs::laws::Count::within_counted, crate::proofs::laws::Count::beyond_none, crate::proofs::laws::Count::within_fits))]
    final fn lit_for(self, at: Self::Unit, more: Self::Unit) -> Self::Unit
        ensures { Self.Unit.count result ≡ counted_ticks (lit self) (Self.Unit.count at) (Self.Unit.count more) }
    {
        if at.has_room_for(more) {
            rest(self.lit_before(sum(at, more)), self.lit_before(at))
        } else {
            Self::Unit::of(0)
        }
    }
}
