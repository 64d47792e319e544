//! The lines of a source, one at a time, in the memory of the longest line.
//!
//! [`Lines`] reads any [`Source`](sval_io::Source) line by line.
#![tactic(auto)]

mod error;
mod lines;

pub use error::LineError;
pub use lines::Lines;
