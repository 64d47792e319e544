//! The program, as a job.

ghost use Rattle.sval_filter.specs.Serves.{filter_terms};

use crate::form::named_form;
use crate::running::serve;
use std::alloc::Global;
use sval_io::{Sink, Source};
use sval_program::{Failure, Job, Line};

/// The program, as [`run_process`](sval_program::run_process) and [`run_streams`](sval_program::run_streams) run it:
/// [`run_filter`](crate::run_filter) lists its statuses.
pub struct FilterFields;

impl Job for FilterFields {
    ghost use Rattle.sval_filter.specs.Forms.{FilterForm};

    ghost Form = { FilterForm };

    ghost terms = { filter_terms };

    fn usage() -> Line {
        Line::text("usage: sval_filter drop|keep PATH...\n")
    }

    fn takes(words: &[String]) -> bool {
        named_form(words).is_some()
    }

    fn serve<I: Source, K: Sink>(
        alloc: Global,
        words: &[String],
        input: &mut I,
        out: &mut K,
    ) -> Result<(), Failure> {
        serve(alloc, words, input, out)
    }
}
