// Answer lines, written into a buffer that the caller lends.
ghost use Rattle.std.specs.Prelude.{◌+◌, ◌≤◌, length};
ghost use Rattle.text.specs.Write.{Written};
ghost use Rattle.script.specs.Answer.{answer_line};

use text::proved_callers::{write_decimal, write_text};

// The room for an answer.
pub const ROOM: usize = 76;

// At most 76 bytes: three numbers of 20 digits and 16 bytes between them.
#[tactic(auto, unfolding(crate::specs::Answer::answer_line))]
pub fn write_answer(n: u64, code: u64, value: u64, out: &mut [u8], at: usize) -> usize
    requires { at + 76 ≤ length out.old }
    ensures { Written out.old at (answer_line n code value) out.new result }
{
    let at = write_text(b"n=", out, at);
    let at = write_decimal(n, out, at);
    let at = write_text(b" code=", out, at);
    let at = write_decimal(code, out, at);
    let at = write_text(b" value=", out, at);
    let at = write_decimal(value, out, at);
    write_text(b"\n", out, at)
}
