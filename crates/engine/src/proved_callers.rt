// For proved callers alone, as are the methods of `Lent`: what asks that what is lent has its lengths, and that ok is true to the bus that it
// stands for.
pub use crate::lens::{load, load_all, store_all};
pub use crate::place::change_check;
