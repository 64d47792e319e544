//! The status that the program has beside those of every program.

pub use sval_program::status::BAD_CBOR;
