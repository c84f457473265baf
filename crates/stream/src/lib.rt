// A stream of lines, plain or stamped: standard input to standard output, an answer for each line.
#![tactic(auto)]

mod buffers;
mod failure;
mod input;
mod output;
pub mod proved_callers;

pub use buffers::Stream;
pub use input::Status;
