// For proved callers alone: what asks that the lent totals are 16 and 16, and of a wait that it exceeds nothing.
pub use crate::limits::{exceeds, fit};
pub use crate::raise::wait;
pub use crate::records::record_waited;
