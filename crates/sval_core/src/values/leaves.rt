//! Values that are one call.
#![tactic(auto, unfolding(crate::specs::Law::emits))]

ghost use Rattle.std.specs.Prelude.{pos};
ghost use Rattle.sval_label.specs.Calls.{U8, U16, U32, U64, U128, I8, I16, I32, I64, I128};
ghost use Rattle.sval_core.specs.Values.{null_emission, truth_emission, int_emission, unit_emission};

use crate::stream::Stream;
use crate::value::Value;
use crate::values::names::unit;
use sval_label::{Lent, Result};

/// No value, as a value: it makes the call `null`.
#[derive(Clone, Copy, Debug, PartialEq, Eq)]
pub struct Null;

impl<'v> Value<'v, Lent<'v>> for Null {
    ghost emission = { λ _. null_emission };

    fn stream<S: Stream<Lent<'v>>>(&'v self, stream: &mut S) -> Result {
        stream.null()
    }
}

impl<'v> Value<'v, Lent<'v>> for () {
    ghost emission = { λ _. unit_emission };

    fn stream<S: Stream<Lent<'v>>>(&'v self, stream: &mut S) -> Result {
        stream.tag(Some(unit()), None, None)
    }
}

impl<'v> Value<'v, Lent<'v>> for bool {
    ghost emission = { truth_emission };

    fn stream<S: Stream<Lent<'v>>>(&'v self, stream: &mut S) -> Result {
        stream.bool(*self)
    }
}

impl<'v> Value<'v, Lent<'v>> for u8 {
    ghost emission = { λ number. int_emission U8 (pos number) };

    fn stream<S: Stream<Lent<'v>>>(&'v self, stream: &mut S) -> Result {
        stream.u8(*self)
    }
}

impl<'v> Value<'v, Lent<'v>> for u16 {
    ghost emission = { λ number. int_emission U16 (pos number) };

    fn stream<S: Stream<Lent<'v>>>(&'v self, stream: &mut S) -> Result {
        stream.u16(*self)
    }
}

impl<'v> Value<'v, Lent<'v>> for u32 {
    ghost emission = { λ number. int_emission U32 (pos number) };

    fn stream<S: Stream<Lent<'v>>>(&'v self, stream: &mut S) -> Result {
        stream.u32(*self)
    }
}

impl<'v> Value<'v, Lent<'v>> for u64 {
    ghost emission = { λ number. int_emission U64 (pos number) };

    fn stream<S: Stream<Lent<'v>>>(&'v self, stream: &mut S) -> Result {
        stream.u64(*self)
    }
}

impl<'v> Value<'v, Lent<'v>> for u128 {
    ghost emission = { λ number. int_emission U128 (pos number) };

    fn stream<S: Stream<Lent<'v>>>(&'v self, stream: &mut S) -> Result {
        stream.u128(*self)
    }
}

impl<'v> Value<'v, Lent<'v>> for i8 {
    ghost emission = { int_emission I8 };

    fn stream<S: Stream<Lent<'v>>>(&'v self, stream: &mut S) -> Result {
        stream.i8(*self)
    }
}

impl<'v> Value<'v, Lent<'v>> for i16 {
    ghost emission = { int_emission I16 };

    fn stream<S: Stream<Lent<'v>>>(&'v self, stream: &mut S) -> Result {
        stream.i16(*self)
    }
}

impl<'v> Value<'v, Lent<'v>> for i32 {
    ghost emission = { int_emission I32 };

    fn stream<S: Stream<Lent<'v>>>(&'v self, stream: &mut S) -> Result {
        stream.i32(*self)
    }
}

impl<'v> Value<'v, Lent<'v>> for i64 {
    ghost emission = { int_emission I64 };

    fn stream<S: Stream<Lent<'v>>>(&'v self, stream: &mut S) -> Result {
        stream.i64(*self)
    }
}

impl<'v> Value<'v, Lent<'v>> for i128 {
    ghost emission = { int_emission I128 };

    fn stream<S: Stream<Lent<'v>>>(&'v self, stream: &mut S) -> Result {
        stream.i128(*self)
    }
}
