//! The first example of sval's own README.

ghost use Rattle.std.specs.Prelude.{[], ◌∷◌};
ghost use Rattle.sval.specs.Fields.{a_struct, field, i32_emission, bool_emission, text_emission};

use sval::{Lent, Result, Stream, Value, fields, stream_struct};

/// A number, a truth value and a text.
#[derive(Clone, Copy, Debug)]
pub struct MyRecord<'a> {
    /// A number.
    pub field_0: i32,
    /// A truth value.
    pub field_1: bool,
    /// A text.
    pub field_2: &'a str,
}

impl<'v, 'a> Value<'v, Lent<'v>> for MyRecord<'a> {
    ghost emission = { λ mine. a_struct "MyRecord" (
        field "field_0" (i32_emission mine.field_0) ∷
        field "field_1" (bool_emission mine.field_1) ∷
        field "field_2" (text_emission mine.field_2) ∷ []) };

    fn stream<S: Stream<Lent<'v>>>(&'v self, stream: &mut S) -> Result {
        stream_struct(stream, "MyRecord", fields!(self, field_0, field_1, field_2))
    }
}
