// Where the lines of an input end, and how many there are.
ghost use Rattle.std.specs.Prelude.{cond, ◌≡◌, ◌+◌, ◌^◌, ◌<◌, ◌≤◌, length, drop, sum_by};
ghost use Rattle.text.specs.Lines.{lines_of, end_of};
ghost use Rattle.text.specs.laws.Lines.{feeds, unended};

use crate::read::rest_of;
use memchr::memchr;

// The index of the next line feed, from `from` on, or the length.
#[tactic(auto, using(crate::proofs::Scanning::end_found))]
pub fn line_end(input: &[u8], from: usize) -> usize
    ensures { result ≡ from + end_of (drop from input.now) }
{
    let rest = rest_of(input, from);
    from + memchr(b'\n', rest).unwrap_or(rest.len())
}

// How many line feeds a few bytes have. They are counted in a byte, so that the compiler takes sixteen at a time.
#[tactic(auto, using(crate::proofs::Scanning::feeds_counted))]
fn feeds_in(part: &[u8]) -> u8
    requires { length part.now ≤ 240 }
    ensures { result ≡ feeds part.now }
{
    part.iter().map(|&b| u8::from(b == b'\n')).sum()
}

// How many line feeds parts have.
fn feeds_of(parts: &[[u8; 240]]) -> usize
    requires { sum_by feeds parts.now < 2 ^ 64 }
    ensures { result ≡ sum_by feeds parts.now }
{
    parts.iter().map(|part| usize::from(feeds_in(part))).sum()
}

// How many line feeds an input has, part by part.
#[tactic(auto, using(crate::proofs::Scanning::parts_counted))]
fn feeds(input: &[u8]) -> usize
    ensures { result ≡ feeds input.now }
{
    let (parts, rest) = input.as_chunks();
    feeds_of(parts) + usize::from(feeds_in(rest))
}

// Whether an input's last line lacks its line feed.
#[tactic(auto, using(crate::proofs::Scanning::open_end))]
fn is_unended(input: &[u8]) -> bool
    ensures { cond result 1 0 ≡ unended input.now }
{
    input.last().is_some_and(|&last| last != b'\n')
}

// How many lines an input has: as many as line feeds, and a last one that lacks its own.
#[tactic(auto, using(crate::specs::laws::Lines::counted, crate::proofs::Scanning::few_feeds))]
pub fn lines_in(input: &[u8]) -> usize
    ensures { result ≡ length (lines_of input.now) }
{
    feeds(input) + usize::from(is_unended(input))
}
