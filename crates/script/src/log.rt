// A whole log, of events or stamped, from an empty bus: the answer to each of its lines.
ghost use Rattle.std.specs.Prelude.{◌+◌, ◌≤◌, length};
ghost use Rattle.text.specs.Run.{RunsLog};
ghost use Rattle.text.specs.Write.{Written};
ghost use Rattle.script.specs.Twin.{fresh_state, fresh_replay, answer_to, twin};

use crate::answer::{ROOM, write_answer};
use crate::twin::{Ran, State, fresh, fresh_replay, next_number, reply_to, run};
use bus::Judged;
use text::lines_in;

// Answers a last line, which lacks its line feed.
#[tactic(auto, unfolding(crate::specs::Twin::answer_to))]
fn answer_last(state: State, line: &[u8], out: &mut [u8], at: usize) -> usize
    requires { at + 76 ≤ length out.old }
    ensures { Written out.old at (answer_to state line.now) out.new result }
{
    let r = reply_to(Judged::new(state.bus), state.form, line);
    write_answer(next_number(state.lines), r.code, r.value, out, at)
}

// Writes the answers to the start of out and gives their length. Where out has less than 76 bytes for each line, 0, and out stays.
fn answer_log(first: State, log: &[u8], out: &mut [u8]) -> usize
    ensures { RunsLog twin first log.now out.old out.new result }
{
    if out.len() / ROOM < lines_in(log) {
        return 0;
    }
    let Ran { read, wrote, state } = run(first, log, out);
    if log.len() <= read {
        return wrote;
    }
    answer_last(state, &log[read..], out, wrote)
}

// A log of events.
pub fn run_log(log: &[u8], out: &mut [u8]) -> usize
    ensures { RunsLog twin fresh_state log.now out.old out.new result }
{
    answer_log(fresh(), log, out)
}

// A recording.
pub fn replay_log(log: &[u8], out: &mut [u8]) -> usize
    ensures { RunsLog twin fresh_replay log.now out.old out.new result }
{
    answer_log(fresh_replay(), log, out)
}
