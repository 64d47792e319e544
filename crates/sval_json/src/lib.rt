//! JSON (RFC 8259) of values.
//!
//! [`stream_to_io_write`] writes a value to any [`Sink`]: a [`VecSink`] in memory, a [`RealSink`] over one of std's
//! writers, or one of your own. [`stream_to_vec`], [`stream_to_string`] and [`stream_to_json_str`] give the JSON in
//! memory. An [`Error`] tells its cause by [`ErrorKind`]. [`JsonWriter`] is the writer as a stream of its own.
#![tactic(auto)]

mod digits;
mod error;
pub mod escape;
mod json_str;
pub mod laws;
pub mod marks;
mod number;
mod passed;
mod style;
pub mod tags;
mod to_fmt;
mod to_io;
mod to_memory;
mod writer;

pub use digits::format_int;
pub use error::{Error, ErrorKind};
pub use json_str::{JsonStr, JsonString};
pub use style::Variants;
pub use sval_io::{
    CountSink, FaultPlan, FaultySink, FixedSink, RealSink, Sink, SinkError, TrickleSink, VecSink,
    write_all,
};
pub use to_fmt::stream_to_fmt_write;
pub use to_io::{stream_to_io_write, stream_to_io_write_with};
pub use to_memory::{stream_to_json_str, stream_to_string, stream_to_vec};
pub use writer::JsonWriter;
