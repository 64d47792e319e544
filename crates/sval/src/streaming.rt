//! Values into streams.

ghost use Rattle.sval_core.specs.Law.{Emits, as_computed};

use sval_core::{Lending, Lent, Result, Stream, Value};

/// Streams a value: the same as the value's own `stream`.
///
/// # Errors
///
/// It refuses where the value refuses by itself, after all its calls, or at the first call that the stream refuses.
///
/// ```
/// let mut buffer = ValueBuf::new(alloc);
/// stream(&mut buffer, &42u64)?;
/// ```
pub fn stream<'v, L: Lending, S: Stream<L>, V: Value<'v, L>>(stream: &mut S, value: &'v V) -> Result
    ensures { Emits S.law result (S.standing stream.old) (V.emission value.now) (S.standing stream.new) }
{
    value.stream(stream)
}

/// Streams a value with a computed fragment in place of each borrowed one, into a stream that may keep nothing of it.
///
/// # Errors
///
/// Those of [`stream`].
pub fn stream_computed<'v, L: Lending, S: Stream<L>, V: Value<'v, Lent<'v>>>(
    stream: &mut S,
    value: &'v V,
) -> Result
    ensures { Emits S.law result
        (S.standing stream.old) (as_computed (V.emission value.now)) (S.standing stream.new) }
{
    stream.value_computed(value)
}
