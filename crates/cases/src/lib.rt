// What the programs that run cases share: buses to begin with, and the parts of a printed line.
#![tactic(auto)]

pub mod line;
pub mod setup;
