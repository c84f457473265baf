// A read or a write that failed, told on standard error.
use std::fmt::InlineText;
use std::io::Error;

// One line: what failed, and the words of the error without its number.
pub fn tell(rt: &impl Eprint, what: &str, error: Error) {
    let text = InlineText::<128>::of(error);
    let words = text.as_str();
    let reason = match words.rsplit_once(" (os error ") {
        Some((reason, _)) => reason,
        None => words,
    };
    let _ = eprintln!(rt; "{what}: {reason}");
}
