// The text: event lines, plain and stamped, answer lines, a run over the lines of a lent buffer, and over a whole log.
#![tactic(auto)]

mod answer;
mod log;
mod parser;
mod recording;
mod stamped;
mod twin;

pub use log::{replay_log, run_log};
pub use parser::parse;
pub use recording::totals_log;
pub use stamped::parse_entry;
pub use text::lines_in;
pub use twin::{Form, Ran, State, fresh, fresh_replay, run};
