//! What the programs of this repository have in common.
//!
//! A [`Job`] reads an input from a [`Source`], as [`read_script`] or [`read_input`] does, writes to one sink, and tells
//! another one by a [`Line`] why it failed. It ends with one of the numbers of [`status`]. [`run_streams`] runs it over
//! std's readers and writers, and [`run_process`] in a process.
#![tactic(auto)]

mod captured;
mod failure;
mod form;
pub mod job;
pub mod laws;
mod line;
pub mod lines;
mod process;
mod program;
mod reading;
pub mod status;

pub use captured::print_captured;
pub use failure::{Failure, Fault};
pub use form::{ReadForm, read_form};
pub use job::Job;
pub use line::{Line, tell};
pub use process::{run_process, status_without_words};
pub use program::run_streams;
pub use reading::read_script;
pub use sval_io::{
    FaultySource, InputError, MemSource, RealSource, Source, SourceError, read_input,
};
