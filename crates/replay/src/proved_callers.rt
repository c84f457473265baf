// For proved callers alone: what asks something of its caller. ok says whether the bus is well formed.
pub use crate::entries::step_of;
