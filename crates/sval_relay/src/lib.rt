//! Serves scripts of calls: reads one, checks it, and writes the value that it spells as JSON or as a canonical script.
//!
//! [`relay`] serves a script in memory, and [`relay_lines`] one that spells values one after another.
//! [`run`] is the whole program, over any words and devices, and answers one of the numbers of [`status`].
//! [`relay_streams`] is the same over std's readers and writers.
//! [`relay_made`] makes a script, serves it in memory, and tells how long it and its JSON are.
#![tactic(auto)]

pub mod laws;
mod lists;
mod made;
mod one_value;
mod relaying;
mod running;
mod streams;
mod trees;
mod way;

pub use made::{MadeError, relay_made};
pub use relaying::{RelayError, relay, relay_lines};
pub use running::run;
pub use streams::{Relay, relay_streams};
pub use sval_io::{FaultySource, MemSource, RealSource, Source, SourceError};
pub use sval_program::status;
pub use way::Way;
