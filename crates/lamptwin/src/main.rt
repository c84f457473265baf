// A bus over standard input and output: an answer line for each event line.
#![tactic(auto)]

ghost use Rattle.std.specs.Prelude.{◌≡◌};
ghost use Rattle.script.specs.Twin.{fresh_state};
ghost use Rattle.stream.specs.Stream.{Stands, Answers};

use std::io::Read;
use stream::Stream;
use stream::proved_callers::Buffers;

// From an empty bus on.
fn answer_all(buffers: &mut Buffers, rt: &(impl Print + Eprint), reader: &mut impl Read) -> Stream
    requires { (buffers.old.read ≡ 0) × (buffers.old.sent ≡ 0) }
    ensures answers { Answers fresh_state result buffers.new.buf.now }
    ensures stands { Stands buffers.new.read buffers.new.sent result }
{
    buffers.answer_from(rt, reader, script::fresh())
}

fn main(rt: HostRuntime) {
    let mut reader = rt.stdin();
    let mut buf = io::large_buffer();
    let mut out = io::large_buffer();
    let mut buffers = Buffers {
        read: 0,
        sent: 0,
        buf: &mut buf,
        out: &mut out,
    };
    answer_all(&mut buffers, &rt, &mut reader);
}
