// For proved callers alone: what asks something of its caller, here the room for a text.
pub use crate::write::write_setting;
