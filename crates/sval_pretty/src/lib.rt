//! Pretty JSON: one line for each element and member, two spaces for each level.
//!
//! [`write_pretty`] writes the pretty text of a JSON text to any [`Sink`](sval_io::Sink), and [`pretty_to_vec`] gives it
//! in memory.
#![tactic(auto)]

pub mod laws;
pub mod layout;
mod to_memory;
mod to_sink;

pub use to_memory::pretty_to_vec;
pub use to_sink::write_pretty;
