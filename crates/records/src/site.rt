//! A struct that others hold.

ghost use Rattle.records.specs.Records.{site_emission};

use sval::{Lent, Result, Stream, Value, fields, stream_struct};

/// A place in the program.
#[derive(Drop, Debug)]
pub struct Site {
    /// The name of the file.
    pub file: String,
    /// The number of the line, from 1.
    pub line: u32,
}

impl<'v> Value<'v, Lent<'v>> for Site {
    ghost emission = { site_emission };

    fn stream<S: Stream<Lent<'v>>>(&'v self, stream: &mut S) -> Result {
        stream_struct(stream, "Site", fields!(self, file, line))
    }
}
