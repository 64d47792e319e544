//! The statuses that the program has beside those of every program.

pub use sval_program::status::{NOT_INTEGER, RAW};
