// A stamped line read back as its entry: the stamp, one space, and an event's line.
ghost use Rattle.std.specs.Prelude.{◌≡◌};
ghost use Rattle.text.specs.Read.{rest_at};
ghost use Rattle.script.specs.Parser.{stamp_of, request_in, entry_by, parsed_entry};

use crate::parser::parse;
use bus::Event;
use replay::Entry;
use text::{Field, number_of, read_field, read_key, start};

// Past the stamp and its space.
pub fn stamp_of(line: &[u8]) -> Option<Field>
    ensures { rest_at line.now result ≡ stamp_of line.now }
{
    read_key(line, read_field(line, start(), b"at="), b" ")
}

// The event whose line the rest is, if there is one.
#[tactic(auto, using(crate::specs::laws::Stamped::nothing_left))]
pub fn parse_rest(line: &[u8], from: Option<Field>) -> Option<Event>
    ensures { result ≡ request_in (rest_at line.now from) }
{
    let Field { at, .. } = from?;
    parse(line.get(at..)?)
}

// The entry of an event, where its stamp is one of 32 bits.
pub fn entry_by(stamp: u64, request: Option<Event>) -> Option<Entry>
    ensures { result ≡ entry_by stamp request }
{
    let event = request?;
    let at = u32::try_from(stamp).ok()?;
    Some(Entry { at, event })
}

// The entry whose line this is, if there is one.
#[tactic(auto, unfolding(crate::specs::Parser::parsed_entry))]
pub fn parse_entry(line: &[u8]) -> Option<Entry>
    ensures { result ≡ parsed_entry line.now }
{
    let stamp = stamp_of(line);
    entry_by(number_of(stamp), parse_rest(line, stamp))
}
