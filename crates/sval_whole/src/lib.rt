//! JSON and captures of values whose calls are checked.
//!
//! The writer of `sval_json` and `ValueBuf` of `sval_buffer` trust that calls, ends and sizes are right: a value that
//! forgets an end gives `Ok` and broken JSON there. Here each value is checked first: `Ok` comes only where its
//! calls are one whole value.
//!
//! - [`to_json_string`], [`to_json_vec`] and [`write_json`] write a value, and their `_with` forms in a style of
//!   variants. Their words are in `specs/Whole.antt` and `specs/WholeTexts.antt`.
//! - [`collect_whole`] captures a value. Its words are in `specs/WholeCaptures.antt`.
//! - [`WriteError`] says why JSON wasn't written, and names the first bad call.
//! - [`laws`] has what holds of the answers, and which JSON structs and enums of a user's own have.
#![tactic(auto)]

mod capture;
mod error;
pub mod laws;
mod to_memory;
mod write;

pub use capture::collect_whole;
pub use error::WriteError;
pub use to_memory::{to_json_string, to_json_string_with, to_json_vec, to_json_vec_with};
pub use write::{write_json, write_json_with};
