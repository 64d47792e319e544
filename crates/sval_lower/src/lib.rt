//! Calls in the place of other calls, and what readers find in a value.
//!
//! [`default_stream`] tells a stream the calls that stand for a call which it doesn't take itself. They are defined in
//! `specs/Lower.antt` and `specs/Lowered.antt`. [`Readers`] and [`default_value`] read a value by its calls, as
//! `specs/Readers.antt` says. [`laws`] has what holds of all of it.
#![tactic(auto)]

pub mod default_stream;
pub mod default_value;
pub mod laws;
mod readers;
mod reading;

pub use readers::Readers;
pub use reading::GivenTag;
