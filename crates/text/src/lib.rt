// Bytes of a text: keys and numbers read from a line, texts and numbers written into a lent buffer, and where lines end. What a run over
// lines and a stream of them are is in specs/, over any state.
#![tactic(auto)]

mod lines;
pub mod proved_callers;
mod read;
mod write;

pub use lines::{line_end, lines_in};
pub use read::{Field, at_end, byte_at, number_of, read_field, read_key, start};
