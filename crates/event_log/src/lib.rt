//! A structured logger, as a user of these crates writes one: it captures events as they come, keeps the latest ones,
//! and writes them later as lines of JSON.
//!
//! - An [`EventLog`] is seen as the events that it holds, each as it was captured, and its capacity
//!   (`specs/Logs.antt`). [`EventLog::record`] takes any value that is one whole value and has a JSON;
//!   [`EventLog::write_lines`] writes to any sink, and can fail only where the sink does.
//! - An event is any value of the program: a struct of the user's own, as `Event` of the crate `records`, or a map of the
//!   standard library.
//!
//! # What the proofs take
//!
//! 1. [`EventLog::record`] is generic in the value by a bound that names a lifetime. A function with that bound gets no
//!    proof where its signature reaches a text of the program, as the store of an [`EventLog`] does. So the log is
//!    generic in the store `N` of what it captures, as the types of `sval_buffer` are.
//! 2. What is not generic in a value is written for the store of [`EventLog`]. A captured value is passed for a bound
//!    there, so it has to be shown that the store outlives it, and that isn't known of an `N`.
//! 3. That each event has a line is an invariant of the log, so writing needs no `requires`.
//! 4. What is written later is what would have been written at once, since both spell one tree
//!    (`proofs/Captured.antt`).
#![tactic(auto)]

mod checking;
mod lines;
mod log;

pub use checking::RecordError;
pub use log::{AnyEventLog, EventLog};
