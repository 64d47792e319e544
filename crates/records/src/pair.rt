//! Structs that are generic in what they hold.

ghost use Rattle.std.specs.Prelude.{[], ◌∷◌};
ghost use Rattle.sval.specs.Fields.{a_struct, field, tuple_struct, u32_emission};

use sval::{Lent, Result, Stream, Value, fields, stream_struct, stream_tuple_struct};

/// Two values of any types.
#[derive(Clone, Copy, Debug)]
pub struct Pair<A, B> {
    /// One of them.
    pub left: A,
    /// The other.
    pub right: B,
}

impl<'v, A: Value<'v, Lent<'v>>, B: Value<'v, Lent<'v>>> Value<'v, Lent<'v>> for Pair<A, B> {
    ghost emission = { λ pair. a_struct "Pair" (
        field "left" (A.emission pair.left) ∷
        field "right" (B.emission pair.right) ∷ []) };

    fn stream<S: Stream<Lent<'v>>>(&'v self, stream: &mut S) -> Result {
        stream_struct(stream, "Pair", fields!(self, left, right))
    }
}

/// The first and the last value of an interval.
#[derive(Clone, Copy, Debug)]
pub struct Interval<T>(pub T, pub T);

impl<'v, T: Value<'v, Lent<'v>>> Value<'v, Lent<'v>> for Interval<T> {
    ghost emission = { λ interval. tuple_struct "Interval" (T.emission interval.0 ∷ T.emission interval.1 ∷ []) };

    fn stream<S: Stream<Lent<'v>>>(&'v self, stream: &mut S) -> Result {
        stream_tuple_struct(stream, "Interval", fields!(self, 0, 1))
    }
}

/// A value with the number of its form.
#[derive(Clone, Copy, Debug)]
pub struct Versioned<T> {
    /// The number.
    pub version: u32,
    /// The value.
    pub value: T,
}

impl<'v, T: Value<'v, Lent<'v>>> Value<'v, Lent<'v>> for Versioned<T> {
    ghost emission = { λ versioned. a_struct "Versioned" (
        field "version" (u32_emission versioned.version) ∷
        field "value" (T.emission versioned.value) ∷ []) };

    fn stream<S: Stream<Lent<'v>>>(&'v self, stream: &mut S) -> Result {
        stream_struct(stream, "Versioned", fields!(self, version, value))
    }
}
