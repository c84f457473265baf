// For proved callers alone: what asks something of its caller, here that nothing is read or sent yet.
pub use crate::buffers::Buffers;
