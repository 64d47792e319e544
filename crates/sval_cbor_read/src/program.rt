//! The program, as a job.

ghost use Rattle.sval_cbor_read.specs.Serves.{cbor_read_terms};

use crate::document::CborReadError;
use crate::running::serve_input;
use std::alloc::Global;
use sval_io::{Sink, Source};
use sval_program::{Failure, Fault, Job, Line, read_form};

impl From<CborReadError> for Failure {
    ghost use Rattle.std.specs.Prelude.{◌≡◌};
    ghost use Rattle.sval_cbor_read.specs.Serves.{failure_of_cbor_read};

    ghost from_gives = { λ error failure. failure ≡ failure_of_cbor_read error };

    fn from(error: CborReadError) -> Failure {
        match error {
            CborReadError::Malformed { .. } => Failure::Fault(Fault::BadCbor),
            CborReadError::Unsupported { .. } => Failure::Fault(Fault::BadCbor),
            CborReadError::NoMemory => Failure::NoMemory,
        }
    }
}

/// The program, as [`run_process`](sval_program::run_process) and [`run_streams`](sval_program::run_streams) run it:
/// [`run_cbor_read`](crate::run_cbor_read) says when each status comes.
pub struct ReadCbor;

impl Job for ReadCbor {
    ghost use Rattle.sval_program.specs.declared.form.ReadForm.{ReadForm};

    ghost Form = { ReadForm };

    ghost terms = { cbor_read_terms };

    fn usage() -> Line {
        Line::text("usage: sval_cbor_read json|calls\n")
    }

    fn takes(words: &[String]) -> bool {
        read_form(words).is_some()
    }

    fn serve<I: Source, K: Sink>(
        alloc: Global,
        words: &[String],
        input: &mut I,
        out: &mut K,
    ) -> Result<(), Failure> {
        match read_form(words) {
            None => Err(Failure::Usage),
            Some(form) => serve_input(alloc, form, input, out),
        }
    }
}
