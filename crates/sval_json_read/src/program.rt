//! The program, as a job.

ghost use Rattle.sval_json_read.specs.Serves.{json_read_terms};

use crate::document::ReadError;
use crate::running::serve_input;
use std::alloc::Global;
use sval_io::{Sink, Source};
use sval_program::{Failure, Fault, Job, Line, read_form};

impl From<ReadError> for Failure {
    ghost use Rattle.std.specs.Prelude.{◌≡◌};
    ghost use Rattle.sval_json_read.specs.Serves.{failure_of_json_read};

    ghost from_gives = { λ error failure. failure ≡ failure_of_json_read error };

    fn from(error: ReadError) -> Failure {
        match error {
            ReadError::NotUtf8 { .. } => Failure::Fault(Fault::NotUtf8),
            ReadError::BadJson { at } => Failure::Fault(Fault::BadJson { at }),
            ReadError::NoMemory => Failure::NoMemory,
        }
    }
}

/// The program, as [`run_process`](sval_program::run_process) and [`run_streams`](sval_program::run_streams) run it:
/// [`run_read`](crate::run_read) says when each status comes.
pub struct ReadJson;

impl Job for ReadJson {
    ghost use Rattle.sval_program.specs.declared.form.ReadForm.{ReadForm};

    ghost Form = { ReadForm };

    ghost terms = { json_read_terms };

    fn usage() -> Line {
        Line::text("usage: sval_json_read json|calls\n")
    }

    fn takes(words: &[String]) -> bool {
        read_form(words).is_some()
    }

    fn serve<I: Source, K: Sink>(
        alloc: Global,
        words: &[String],
        input: &mut I,
        out: &mut K,
    ) -> Result<(), Failure> {
        match read_form(words) {
            None => Err(Failure::Usage),
            Some(form) => serve_input(alloc, form, input, out),
        }
    }
}
