//! A value of this crate's own.

ghost use Rattle.assert_tokens.specs.Points.{unnamed_point_emission};

use sval::{Lent, Result, Stream, Value, fields, stream_record};

/// A point of a plane, as a record of its two coordinates.
#[derive(Clone, Copy, Debug)]
pub struct Point {
    /// How far it lies to the right.
    pub x: i64,
    /// How far it lies above.
    pub y: i64,
}

impl<'v> Value<'v, Lent<'v>> for Point {
    ghost emission = { unnamed_point_emission };

    fn stream<S: Stream<Lent<'v>>>(&'v self, stream: &mut S) -> Result {
        stream_record(stream, fields!(self, x, y))
    }
}
