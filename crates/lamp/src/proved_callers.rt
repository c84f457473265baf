// For proved callers alone: what asks that a sum or a difference fits, or that the shared part is one whose counts do.
pub use crate::outputs::shared_lit;
pub use crate::unit::{rest, sum};
