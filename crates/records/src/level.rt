//! An enum without fields.

ghost use Rattle.records.specs.Levels.{level_emission};

use sval::{Lent, Result, Stream, Value, stream_unit_variant};

/// How much an event matters.
#[derive(Clone, Copy, Debug)]
pub enum Level {
    /// Of use to who looks for a fault.
    Debug,
    /// Of use to who runs the program.
    Info,
    /// Something is wrong.
    Error,
}

impl<'v> Value<'v, Lent<'v>> for Level {
    ghost emission = { level_emission };

    fn stream<S: Stream<Lent<'v>>>(&'v self, stream: &mut S) -> Result {
        match self {
            Level::Debug => stream_unit_variant(stream, "Level", "Debug", 0),
            Level::Info => stream_unit_variant(stream, "Level", "Info", 1),
            Level::Error => stream_unit_variant(stream, "Level", "Error", 2),
        }
    }
}
