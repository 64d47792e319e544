//! Readings under a title: a struct that holds another value.

ghost use Rattle.std.specs.Prelude.{[], ◌∷◌};
ghost use Rattle.sval.specs.Fields.{a_struct, field, string_emission};
ghost use Rattle.readings.specs.Readings.{readings_emission};

use crate::Readings;
use sval::{Lent, Result, Stream, Value, fields, stream_struct};

/// Readings under a title.
#[derive(Drop)]
pub struct Report {
    /// The title.
    pub title: String,
    /// The readings.
    pub readings: Readings,
}

impl<'v> Value<'v, Lent<'v>> for Report {
    ghost emission = { λ report. a_struct "Report" (
        field "title" (string_emission report.title) ∷
        field "readings" (readings_emission report.readings) ∷ []) };

    fn stream<S: Stream<Lent<'v>>>(&'v self, stream: &mut S) -> Result {
        stream_struct(stream, "Report", fields!(self, title, readings))
    }
}
