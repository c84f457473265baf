// Standard output: what was handed to it.
ghost use Rattle.std.specs.Prelude.{◌≡◌, ◌+◌, length};
ghost use Rattle.stream.specs.Output.{nothing_sent, Sends};

use crate::failure::tell;
use script::State;

// The state after the lines whose answers were handed over, how many bytes these were, and whether a write failed. Only this module
// makes one, so that answers go out one after the other.
#[derive(Clone, Copy)]
pub struct Output {
    state: State,
    sent: usize,
    failed: bool,
}

impl Output {
    pub fn untouched(first: State) -> Output
        ensures { result ≡ nothing_sent first }
    {
        Output {
            state: first,
            sent: 0,
            failed: false,
        }
    }

    pub fn state(self) -> State
        ensures { result ≡ self.state }
    {
        self.state
    }

    pub fn has_failed(self) -> bool
        ensures { result ≡ self.failed }
    {
        self.failed
    }
}

// The one place that writes: the text is the answers to the lines, and `next` the state after them. A write that fails is told of at once.
// `place` is how much was handed over, and only moves here: an output from before an earlier write is not taken.
pub fn hand_over(
    rt: &(impl Print + Eprint),
    place: &mut usize,
    before: Output,
    lines: &[u8],
    text: &[u8],
    next: State,
) -> Output
    requires { Sends place.old before lines.now text.now next }
    ensures state_value { (result.state ≡ next) × (result.sent ≡ before.sent + length text.now) }
    ensures place_after { place.new ≡ result.sent }
{
    let failed = match rt.write_all(text) {
        Ok(()) => false,
        Err(error) => {
            tell(rt, "lamptwin: output", error);
            true
        }
    };
    *place = before.sent + text.len();
    Output {
        state: next,
        sent: *place,
        failed,
    }
}
