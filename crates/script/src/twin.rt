// From the bytes of some lines to the bytes of their answers.
ghost use Rattle.std.specs.Prelude.{◌≡◌};
ghost use Rattle.refusals.specs.Reasons.{code_in, value_in};
ghost use Rattle.text.specs.Read.{rest_at};
ghost use Rattle.text.specs.Run.{Runs};
ghost use Rattle.script.specs.Twin.{first_state, fresh_state, fresh_replay, next_number, reply_to, twin};
ghost use Rattle.script.specs.Heard.{heard_as, head_of, heard_by};

use crate::answer::{ROOM, write_answer};
use crate::parser::parse;
use crate::stamped::{entry_by, parse_entry, parse_rest, stamp_of};
use bus::proved_callers::asked;
use bus::{Asked, Bus, Event, Judged, Reply};
use refusals::Reason;
use replay::{Clock, Entry, step_judged};
use text::{Field, line_end, number_of, start};

// What the lines of a log are: events, or events with a stamp before each, and then the clock.
#[derive(Clone, Copy, Debug, PartialEq, Eq)]
pub enum Form {
    Plain,
    Stamped(Clock),
}

// What is kept from line to line: how many lines are answered, the bus after them, and the form of the lines.
#[derive(Clone, Copy)]
pub struct State {
    pub lines: u64,
    pub bus: Bus,
    pub form: Form,
}

// How far a run got: bytes read, bytes written, and the state after the lines answered.
#[derive(Clone, Copy)]
pub struct Ran {
    pub read: usize,
    pub wrote: usize,
    pub state: State,
}

// What a line comes to: a question for a device that stands on the bus, any other request, or an entry of a recording.
#[derive(Clone, Copy, Debug, PartialEq, Eq)]
pub enum Heard {
    Question(Asked),
    Request(Option<Event>),
    Entry { clock: Clock, entry: Option<Entry> },
}

// Before the first line: no line is answered, and the bus is empty.
fn first_of(form: Form) -> State
    ensures { result ≡ first_state form }
{
    State {
        lines: 0,
        bus: bus::empty(),
        form,
    }
}

pub fn fresh() -> State
    ensures { result ≡ fresh_state }
{
    first_of(Form::Plain)
}

pub fn fresh_replay() -> State
    ensures { result ≡ fresh_replay }
{
    first_of(Form::Stamped(None))
}

// A line's number is one more than that of the line before; no run gets to the largest u64, where it stays.
pub fn next_number(n: u64) -> u64
    ensures { result ≡ next_number n }
{
    n.saturating_add(1)
}

// What a line is answered with.
#[tactic(auto, unfolding(crate::specs::Twin::reply_to))]
pub fn reply_to(judged: Judged, form: Form, line: &[u8]) -> Reply
    ensures { result ≡ reply_to judged.bus form line.now }
{
    match form {
        Form::Plain => judged.request(parse(line)),
        Form::Stamped(clock) => step_judged(judged, clock, parse_entry(line)).reply,
    }
}

fn heard_as(asked: Option<Asked>, request: Option<Event>) -> Heard
    ensures { result ≡ heard_as asked request }
{
    match asked {
        Some(asked) => Heard::Question(asked),
        None => Heard::Request(request),
    }
}

// Where the event's line begins, by the form of the lines, with the stamp before it.
fn head_of(form: Form, line: &[u8]) -> Option<Field>
    ensures { rest_at line.now result ≡ head_of form line.now }
{
    match form {
        Form::Plain => start(),
        Form::Stamped(_) => stamp_of(line),
    }
}

// An event's line is read in one place for both forms, since a function that one place calls is compiled into it.
#[tactic(auto, unfolding(crate::specs::Heard::heard_by, crate::specs::Parser::parsed_entry))]
fn hear(ok: bool, count: u8, form: Form, line: &[u8]) -> Heard
    ensures { result ≡ heard_by ok count form line.now }
{
    let head = head_of(form, line);
    let request = parse_rest(line, head);
    match form {
        Form::Plain => heard_as(asked(ok, count, request), request),
        Form::Stamped(clock) => Heard::Entry {
            clock,
            entry: entry_by(number_of(head), request),
        },
    }
}

// The code and the value of an answer.
fn code_and_value(answer: Result<u64, Reason>) -> (u64, u64)
    ensures { result ≡ (code_in answer, value_in answer) }
{
    match answer {
        Ok(value) => (0, value),
        Err(reason) => (u64::from(reason), 0),
    }
}

// Answers the complete lines of input, one after the other, while out has room for an answer. The bus is judged once: no line changes
// whether it is well formed. A question is answered by the device that it asks, since a bus by value is copied wherever it is handed.
pub fn run(first: State, input: &[u8], out: &mut [u8]) -> Ran
    ensures { Runs twin first input.now out.old out.new result.read result.wrote result.state }
{
    let mut lines = first.lines;
    let mut judged = Judged::new(first.bus);
    let mut form = first.form;
    let mut read = 0;
    let mut wrote = 0;
    // no `for` over the lines: where the room ends, the rest of the input stays for the next run
    while ROOM <= out.len() - wrote {
        let end = line_end(input, read);
        if input.len() <= end {
            break;
        }
        lines = next_number(lines);
        match hear(judged.ok, judged.bus.count, form, &input[read..end]) {
            Heard::Question(Asked { dev, question }) => {
                let answer = bus::answer_of(judged.bus.devices[dev as usize], question);
                let (code, value) = code_and_value(answer);
                wrote = write_answer(lines, code, value, out, wrote);
            }
            Heard::Request(request) => {
                let r = judged.request(request);
                wrote = write_answer(lines, r.code, r.value, out, wrote);
                judged.bus = r.bus;
            }
            Heard::Entry { clock, entry } => {
                let r = step_judged(judged, clock, entry);
                wrote = write_answer(lines, r.reply.code, r.reply.value, out, wrote);
                judged.bus = r.reply.bus;
                form = Form::Stamped(r.clock);
            }
        }
        read = end + 1;
    }
    Ran {
        read,
        wrote,
        state: State {
            lines,
            bus: judged.bus,
            form,
        },
    }
}
