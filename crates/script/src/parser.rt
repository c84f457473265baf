// An event line read back as its event.
ghost use Rattle.std.specs.Prelude.{◌≡◌, Some, map, length};
ghost use Rattle.std.specs.Option.{option_map};
ghost use Rattle.text.specs.Read.{rest};
ghost use Rattle.script.specs.Parser.{shape_by, shape_of, fields_of, scanned, event_of, parsed};

use bus::{Change, Event, Question, SignalEvent};
use text::{at_end, byte_at, number_of, read_field, start};

// The eleven shapes.
#[derive(Clone, Copy, Debug, PartialEq, Eq)]
pub enum Shape {
    Add,
    Start,
    Put,
    Get,
    Stop,
    Wait,
    Oe,
    Ext,
    Reset,
    Lit,
    Pin,
}

// The one shape that a line can have, by three of its letters.
fn by_letters(x: u8, y: u8, z: u8) -> Shape
    ensures { result ≡ shape_by x y z }
{
    match (x, y, z) {
        (b'a', _, _) => Shape::Add,
        (b's', _, b'a') => Shape::Start,
        (b's', _, _) => Shape::Stop,
        (b'p', b'u', _) => Shape::Put,
        (b'p', _, _) => Shape::Pin,
        (b'g', _, _) => Shape::Get,
        (b'w', _, _) => Shape::Wait,
        (b'o', _, _) => Shape::Oe,
        (b'e', _, _) => Shape::Ext,
        (b'r', _, _) => Shape::Reset,
        _ => Shape::Lit,
    }
}

fn shape_of(line: &[u8]) -> Shape
    ensures { result ≡ shape_of line.now }
{
    by_letters(byte_at(line, 3), byte_at(line, 4), byte_at(line, 5))
}

// The numbers of a line of fields, each a key and a number, with nothing behind the last. Compiled into its callers, which know the keys.
#[inline(always)]
fn fields<const N: usize>(line: &[u8], keys: &[&[u8]]) -> Option<[u64; N]>
    requires { length keys.now ≡ N }
    ensures { result ≡ fields_of (map (λ k. k.now) keys.now) (Some (rest line.now 0)) }
{
    let mut field = start();
    let mut numbers = [0; N];
    for (i, key) in keys.iter().enumerate() {
        field = read_field(line, field, key);
        numbers[i] = number_of(field);
    }
    at_end(line, field).then_some(numbers)
}

// The event of the line read as that shape.
fn read_as(line: &[u8], shape: Shape) -> Option<Event>
    ensures { result ≡ option_map (event_of shape) (scanned shape line.now) }
{
    match shape {
        Shape::Add => {
            let [chip, addr] = fields::<2>(line, &[b"ev=add chip=", b" addr="])?;
            Some(Event::Add { chip, addr })
        }
        Shape::Start => {
            let whole = line == b"ev=start".as_slice();
            whole.then_some(Event::Signal(SignalEvent::Start))
        }
        Shape::Put => {
            let [byte] = fields::<1>(line, &[b"ev=put byte="])?;
            Some(Event::Signal(SignalEvent::Put(byte)))
        }
        Shape::Get => {
            let [ack] = fields::<1>(line, &[b"ev=get ack="])?;
            Some(Event::Signal(SignalEvent::Get(ack)))
        }
        Shape::Stop => {
            let whole = line == b"ev=stop".as_slice();
            whole.then_some(Event::Signal(SignalEvent::Stop))
        }
        Shape::Wait => {
            let [dev, ticks] = fields::<2>(line, &[b"ev=wait dev=", b" ticks="])?;
            let change = Change::Wait(ticks);
            Some(Event::Change { dev, change })
        }
        Shape::Oe => {
            let [dev, level] = fields::<2>(line, &[b"ev=oe dev=", b" level="])?;
            let change = Change::Oe(level);
            Some(Event::Change { dev, change })
        }
        Shape::Ext => {
            let [dev, level] = fields::<2>(line, &[b"ev=ext dev=", b" level="])?;
            let change = Change::Ext(level);
            Some(Event::Change { dev, change })
        }
        Shape::Reset => {
            let [dev] = fields::<1>(line, &[b"ev=reset dev="])?;
            let change = Change::Reset;
            Some(Event::Change { dev, change })
        }
        Shape::Lit => {
            let [dev, out, ticks] = fields::<3>(line, &[b"ev=lit dev=", b" out=", b" ticks="])?;
            let question = Question::Lit { out, ticks };
            Some(Event::Ask { dev, question })
        }
        Shape::Pin => {
            let [dev, out] = fields::<2>(line, &[b"ev=pin dev=", b" out="])?;
            let question = Question::Pin(out);
            Some(Event::Ask { dev, question })
        }
    }
}

// The event whose line this is, if there is one.
#[tactic(auto, unfolding(crate::specs::Parser::parsed))]
pub fn parse(line: &[u8]) -> Option<Event>
    ensures { result ≡ parsed line.now }
{
    read_as(line, shape_of(line))
}
