// A stream of lines through fixed buffers.
ghost use Rattle.std.specs.Prelude.{◌≡◌, ◌+◌, ◌-◌, ◌*◌, ◌^◌, ◌<◌, ◌≤◌, length};
ghost use Rattle.stream.specs.Stream.{Stands, Turns, status_of, begun, Answers};
ghost use Rattle.stream.specs.Steps.{Drains, Kept, Waits, Reads, Ends, Feeds, Finishes, goes_on};
ghost use Rattle.stream.specs.declared.input.Status.TheVariants.{Open};

use crate::input::{Input, Status, receive};
use crate::output::{Output, hand_over};
use script::State;
use std::io::Read;

// A proved loop has to end, and nothing says that an input does: it ends after 2^56 bytes, more than any run reads. So no count wraps.
const MOST: usize = 72057594037927936;

// What is carried from read to read. The first `have` bytes of the buffer wait for the rest of their line.
#[derive(Clone, Copy)]
pub struct Stream {
    pub have: usize,
    pub input: Input,
    pub output: Output,
}

impl Stream {
    fn begin(first: State) -> Stream
        ensures { result ≡ begun first }
    {
        Stream {
            have: 0,
            input: Input::unread(),
            output: Output::untouched(first),
        }
    }

    // Whether there is more to come, all is answered, or a read or a write failed.
    pub fn status(self) -> Status
        ensures { result ≡ status_of self }
    {
        if self.output.has_failed() {
            Status::Failed
        } else {
            self.input.status()
        }
    }

    fn goes_on(self) -> bool
        ensures { result ≡ goes_on self }
    {
        self.status() == Status::Open && self.input.has_less(MOST)
    }
}

// How far the lines are answered.
#[derive(Clone, Copy)]
pub struct Drained {
    pub read: usize,
    pub output: Output,
}

// Answers every complete line of text.
fn drain(
    rt: &(impl Print + Eprint),
    before: Output,
    text: &[u8],
    place: &mut usize,
    out: &mut [u8],
) -> Drained
    requires { (76 ≤ length out.old) × (before.sent + 76 * length text.now < 2 ^ 64) × (place.old ≡ before.sent) }
    ensures drains { Drains before text.now result }
    ensures place_after { place.new ≡ result.output.sent }
{
    let mut output = before;
    let mut read = 0;
    while read < text.len() {
        let r = script::run(output.state(), &text[read..], out);
        if r.read == 0 {
            break;
        }
        let upto = read + r.read;
        output = hand_over(
            rt,
            place,
            output,
            &text[read..upto],
            &out[..r.wrote],
            r.state,
        );
        read = upto;
        if output.has_failed() {
            break;
        }
    }
    Drained { read, output }
}

// Moves the bytes from `from` up to `end` to the start, but no more than 95: a longer line is bad, stamped or not, whatever follows.
fn keep(buf: &mut [u8], from: usize, end: usize) -> usize
    requires { (from ≤ end) × (end ≤ length buf.old) }
    ensures { Kept buf.old from end buf.new result }
{
    let n = (end - from).min(95);
    buf.copy_within(from..from + n, 0);
    n
}

// What a run works with: how much was read and handed over, the bytes read, and the room for answers.
#[derive(Drop)]
pub struct Buffers<'a> {
    pub read: usize,
    pub sent: usize,
    pub buf: &'a mut [u8],
    pub out: &'a mut [u8],
    ghost long: { length buf.now ≡ 65536 },
    ghost room: { 76 ≤ length out.now },
}

impl Buffers<'_> {
    ghost use Rattle.stream.specs.Loan.{IsSameLoan};

    // Answers each line that is complete in the bytes kept and those read behind them. What is kept then, with what is to come, stands for them.
    fn feed(&mut self, rt: &(impl Print + Eprint), s: Stream, input: Input) -> Stream
        requires { Waits s self.old.buf.now × Reads s input × (self.old.sent ≡ s.output.sent) }
        ensures loan { IsSameLoan self.old self.new }
        ensures feeds { Feeds s (input.read - s.input.read) self.old.buf.now result self.new.buf.now }
        ensures stands { Stands input.read self.new.sent result }
        ensures same_place { self.new.read ≡ self.old.read }
    {
        let end = s.have + input.since(s.input);
        let buf = &mut *self.buf;
        let d = drain(rt, s.output, &buf[..end], &mut self.sent, self.out);
        let have = keep(buf, d.read, end);
        Stream {
            have,
            input,
            output: d.output,
        }
    }

    // The end of the input: a last line that lacks its line feed is answered as if it had one.
    fn finish(&mut self, rt: &(impl Print + Eprint), s: Stream, input: Input) -> Stream
        requires { Waits s self.old.buf.now × Ends s input × (self.old.sent ≡ s.output.sent) }
        ensures loan { IsSameLoan self.old self.new }
        ensures finishes { Finishes s self.old.buf.now result self.new.buf.now }
        ensures stands { Stands input.read self.new.sent result }
        ensures same_place { self.new.read ≡ self.old.read }
    {
        if s.have == 0 {
            return Stream { input, ..s };
        }
        self.buf[s.have] = b'\n';
        let d = drain(
            rt,
            s.output,
            &self.buf[..s.have + 1],
            &mut self.sent,
            self.out,
        );
        Stream {
            have: 0,
            input,
            output: d.output,
        }
    }

    // Reads once, and answers each line that is complete; at the end of the input, the last line. A read that fails is no end.
    fn take_turn(&mut self, rt: &(impl Print + Eprint), reader: &mut impl Read, s: Stream) -> Stream
        requires { Waits s self.old.buf.now × Stands self.old.read self.old.sent s }
        ensures loan { IsSameLoan self.old self.new }
        ensures turns { Turns s self.old.buf.now result self.new.buf.now }
        ensures read_lt_read { status_of result ≡ Open → s.input.read < result.input.read }
        ensures stands { Stands self.new.read self.new.sent result }
    {
        let input = receive(rt, reader, &mut self.read, s.input, s.have, self.buf);
        if input.has_failed() {
            return Stream { input, ..s };
        }
        if input.has_ended() {
            return self.finish(rt, s, input);
        }
        self.feed(rt, s, input)
    }

    // Reads and answers, from the state first on, up to the end of the input or a failed call. `read` and `sent` count all that was.
    pub fn answer_from(
        &mut self,
        rt: &(impl Print + Eprint),
        reader: &mut impl Read,
        first: State,
    ) -> Stream
        requires { (self.old.read ≡ 0) × (self.old.sent ≡ 0) }
        ensures loan { IsSameLoan self.old self.new }
        ensures answers { Answers first result self.new.buf.now }
        ensures stands { Stands self.new.read self.new.sent result }
    {
        let mut s = Stream::begin(first);
        while s.goes_on() {
            s = self.take_turn(rt, reader, s);
        }
        s
    }
}
