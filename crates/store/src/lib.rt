// A store of table settings with versions, in a buffer that the caller lends: 256 places of 40 bytes (docs/STORE.md).
#![tactic(auto)]

mod calls;
mod kept;
mod place;
mod places;
mod room;

pub use calls::{fresh, keep, read, return_to, save};
pub use places::SIZE;
