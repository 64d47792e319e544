//! Calls that are values by themselves, and values.

ghost use Rattle.sval_label.specs.Calls as call;
ghost use Rattle.sval_core.specs.Law.{Emits, as_computed};
ghost use Rattle.sval_core.specs.Values.{makes};
ghost use Rattle.sval_lower.specs.Lower.{lower};

use sval_core::{Lending, Lent, Result, Stream, Value};

/// A base call, which stands for itself.
pub fn null<L: Lending, S: Stream<L>>(stream: &mut S) -> Result
    ensures { Emits S.law result (S.standing stream.old) (makes (lower call.Null)) (S.standing stream.new) }
{
    stream.null()
}

/// A base call, which stands for itself.
pub fn bool<L: Lending, S: Stream<L>>(stream: &mut S, value: bool) -> Result
    ensures { Emits S.law result (S.standing stream.old) (makes (lower (call.Truth value))) (S.standing stream.new) }
{
    stream.bool(value)
}

/// The calls of a value.
pub fn value<'v, L: Lending, S: Stream<L>, V: Value<'v, L>>(stream: &mut S, v: &'v V) -> Result
    ensures { Emits S.law result (S.standing stream.old) (V.emission v.now) (S.standing stream.new) }
{
    stream.value(v)
}

/// The calls of a value with a computed fragment in place of each borrowed one.
pub fn value_computed<'v, L: Lending, S: Stream<L>, V: Value<'v, Lent<'v>>>(
    stream: &mut S,
    v: &'v V,
) -> Result
    ensures { Emits S.law result (S.standing stream.old) (as_computed (V.emission v.now)) (S.standing stream.new) }
{
    stream.value_computed(v)
}
