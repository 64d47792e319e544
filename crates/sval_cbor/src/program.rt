//! The program, as a job.

ghost use Rattle.sval_cbor.specs.Serves.{cbor_terms};

use crate::running::{named_form, serve_input};
use std::alloc::Global;
use sval_io::{Sink, Source};
use sval_program::{Failure, Job, Line};

/// The program, as [`run_process`](sval_program::run_process) and [`run_streams`](sval_program::run_streams) run it:
/// [`run_cbor`](crate::run_cbor) lists its statuses.
pub struct WriteCbor;

impl Job for WriteCbor {
    ghost Form = { Unit {0} };

    ghost terms = { cbor_terms };

    fn usage() -> Line {
        Line::text("usage: sval_cbor\n")
    }

    fn takes(words: &[String]) -> bool {
        named_form(words).is_some()
    }

    fn serve<I: Source, K: Sink>(
        alloc: Global,
        words: &[String],
        input: &mut I,
        out: &mut K,
    ) -> Result<(), Failure> {
        match named_form(words) {
            None => Err(Failure::Usage),
            Some(()) => serve_input(alloc, input, out),
        }
    }
}
