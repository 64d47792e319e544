//! The statuses that the program has beside those of every program.

pub use sval_program::status::{BAD_JSON, NOT_UTF8};
