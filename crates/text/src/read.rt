// Reading a line from the left: past a key, past a number.
ghost use Rattle.std.specs.Prelude.{◌≡◌, Some, List, ℕ, drop, get_or};
ghost use Rattle.text.specs.Read.{rest, rest_at, number_in, is_end, takes_digit, key_of, number_of, digits_of, field_of};

// How far a line is read, with the number last read. A line of another shape has no field.
#[derive(Clone, Copy, Debug, PartialEq, Eq)]
pub struct Field {
    pub at: usize,
    pub number: u64,
}

// Nothing is read yet.
pub fn start() -> Option<Field>
    ensures { result ≡ Some (record { at = 0; number = 0 }) }
{
    Some(Field { at: 0, number: 0 })
}

// The number last read, or 0.
pub fn number_of(field: Option<Field>) -> u64
    ensures { (l : List ℕ) → result ≡ number_in (rest_at l field) }
{
    field.map_or(0, |field| field.number)
}

// Whether the line is read to its end.
#[tactic(auto, using(crate::proofs::Reading::end_at))]
pub fn at_end(line: &[u8], field: Option<Field>) -> bool
    ensures { result ≡ is_end (rest_at line.now field) }
{
    field.is_some_and(|field| line.len() <= field.at)
}

// The byte at i, or 0 past the end.
pub fn byte_at(line: &[u8], i: usize) -> u8
    ensures { result ≡ get_or line.now i 0 }
{
    line.get(i).copied().unwrap_or(0)
}

// What is left of the line from `at` on.
pub(crate) fn rest_of(line: &[u8], at: usize) -> &[u8]
    ensures { result.now ≡ drop at line.now }
{
    line.get(at..).unwrap_or(&[])
}

// Whether the digit d goes on the number n: not after a single 0, and not past 15 digits.
fn takes_digit(n: u64, d: u8) -> bool
    ensures { result ≡ takes_digit n d }
{
    n != 0 && n < 100_000_000_000_000 && d.is_ascii_digit()
}

// Past a key; the number stays. Compiled into its callers, since where the key is known it is compared at once.
#[inline(always)]
#[tactic(auto, using(crate::proofs::Reading::skipped_at), unfolding(crate::specs::Read::key_of))]
pub fn read_key(line: &[u8], from: Option<Field>, key: &[u8]) -> Option<Field>
    ensures { rest_at line.now result ≡ key_of key.now (rest_at line.now from) }
{
    let Field { at, number } = from?;
    if !rest_of(line, at).starts_with(key) {
        return None;
    }
    Some(Field {
        at: at + key.len(),
        number,
    })
}

// Past the further digits of a number.
#[tactic(auto, using(crate::proofs::Reading::digits_at))]
fn digits(line: &[u8], at: usize, first: u64) -> Field
    ensures { rest (drop result.at line.now) result.number ≡ digits_of first (drop at line.now) }
{
    let rest = rest_of(line, at);
    let mut number = first;
    for (i, &d) in rest.iter().enumerate() {
        if !takes_digit(number, d) {
            return Field { at: at + i, number };
        }
        number = number * 10 + u64::from(d - b'0');
    }
    Field {
        at: at + rest.len(),
        number,
    }
}

// Past a number.
#[tactic(auto, using(crate::proofs::Reading::first_at), unfolding(crate::specs::Read::number_of))]
fn read_number(line: &[u8], from: Option<Field>) -> Option<Field>
    ensures { rest_at line.now result ≡ number_of (rest_at line.now from) }
{
    let Field { at, .. } = from?;
    let d = *line.get(at)?;
    if !d.is_ascii_digit() {
        return None;
    }
    Some(digits(line, at + 1, u64::from(d - b'0')))
}

// Past a key and a number.
#[tactic(auto, unfolding(crate::specs::Read::field_of))]
pub fn read_field(line: &[u8], from: Option<Field>, key: &[u8]) -> Option<Field>
    ensures { rest_at line.now result ≡ field_of key.now (rest_at line.now from) }
{
    read_number(line, read_key(line, from, key))
}
