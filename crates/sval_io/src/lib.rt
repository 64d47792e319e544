//! What programs write to and read from.
//!
//! A [`Sink`] takes bytes, and a [`Source`] gives them. Both count their faults, and tell what they took and have left
//! where they know it. [`VecSink`] and [`MemSource`] are in memory, and a [`FixedSink`] is over a buffer. [`RealSink`]
//! and [`RealSource`] are over std's writers and readers. A [`BufferedSink`] and a [`KnownSource`] are over writers and
//! readers that always or never tell their bytes, as [`Tells`] and [`TellsLeft`] say. A [`WatchedWriter`] and a
//! [`WatchedReader`] make any writer and reader one of these. [`write_all`] writes a piece whole, and [`read_input`]
//! reads a source to its end. For tests, a [`FaultySink`] and a [`FaultySource`] fail where a [`FaultPlan`] says so,
//! and a [`TrickleSink`] takes one byte a call.
#![tactic(auto)]

mod buffered;
mod count;
mod fault_plan;
mod faulty;
mod faulty_source;
mod fixed;
mod input_error;
mod limits;
mod patient;
mod reading;
mod real;
mod real_source;
mod sink;
mod source;
mod tells;
mod text_place;
mod trickle;
mod watched;

pub use buffered::{BufferedSink, KnownSource};
pub use count::CountSink;
pub use fault_plan::FaultPlan;
pub use faulty::FaultySink;
pub use faulty_source::FaultySource;
pub use fixed::FixedSink;
pub use input_error::InputError;
pub use limits::Limits;
pub use patient::Patient;
pub use reading::{INPUT_LIMIT, read_input};
pub use real::RealSink;
pub use real_source::RealSource;
pub use sink::{Sink, SinkError, VecSink, write_all, write_in_place};
pub use source::{MemSource, Source, SourceError};
pub use tells::{Tells, TellsLeft};
pub use text_place::line_and_column;
pub use trickle::TrickleSink;
pub use watched::{Watch, WatchedReader, WatchedWriter};
