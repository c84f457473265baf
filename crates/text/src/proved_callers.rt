// For proved callers alone: what asks something of its caller, here the room for what is written.
pub use crate::write::{write_decimal, write_text};
