//! Sequences.

ghost use Rattle.std.specs.Prelude.{◌≡◌, true, false};
ghost use Rattle.sval_label.specs.Calls.{Item};
ghost use Rattle.sval_core.specs.Law.{Emits};
ghost use Rattle.sval_core.specs.OneValue.{EachIsOneValue, TakesAnyValue};
ghost use Rattle.sval_core.specs.Values.{part_emission, seq_emission};

use crate::glance::is_surely_whole;
use crate::stream::Stream;
use crate::value::Value;
use sval_label::{Lending, Lent, Result};

/// Streams an item of a sequence.
#[tactic(auto, using(crate::proofs::Between::of_between))]
pub(crate) fn stream_item<'v, T: Value<'v, Lent<'v>>, S: Stream<Lent<'v>>>(
    stream: &mut S,
    item: &'v T,
) -> Result
    ensures { Emits S.law result
        (S.standing stream.old) (part_emission Item (T.emission item.now)) (S.standing stream.new) }
{
    stream.seq_value_begin()?;
    item.stream(stream)?;
    stream.seq_value_end()
}

/// Whether each of these items is surely whole.
fn are_surely_whole<'v, L: Lending, T: Value<'v, L>>(items: &'v [T]) -> bool
    ensures { result ≡ true → EachIsOneValue T.emission items.now }
{
    for item in items {
        if !is_surely_whole::<L, T>(item) {
            return false;
        }
    }
    true
}

/// Skips what holds these items, where the stream asks if it is whole and each of them is.
pub(crate) fn skip_items<'v, L: Lending, T: Value<'v, L>, S: Stream<L>>(
    stream: &mut S,
    items: &'v [T],
) -> bool
    ensures whole { result ≡ true → EachIsOneValue T.emission items.now }
    ensures skipped { result ≡ true → TakesAnyValue S.law (S.standing stream.old) (S.standing stream.new) }
    ensures left { result ≡ false → S.standing stream.new ≡ S.standing stream.old }
{
    if !stream.asks_if_whole() || !are_surely_whole::<L, T>(items) {
        return false;
    }
    stream.skip_value()
}

/// Streams items as a sequence that tells how many they are, as the values `&[T]` and `Vec<T>` do.
///
/// It refuses where an item refuses by itself, after the calls of that item, or where the stream refuses a call.
///
/// ```
/// impl<'v> Value<'v, Lent<'v>> for Names {
///     ghost emission = { λ names. seq_emission (λ name. str_emission (string_bytes name)) names.all.items };
///
///     fn stream<S: Stream<Lent<'v>>>(&'v self, stream: &mut S) -> Result {
///         stream_seq(stream, self.all.as_slice())
///     }
/// }
/// ```
pub fn stream_seq<'v, T: Value<'v, Lent<'v>>, S: Stream<Lent<'v>>>(
    stream: &mut S,
    items: &'v [T],
) -> Result
    ensures { Emits S.law result
        (S.standing stream.old) (seq_emission T.emission items.now) (S.standing stream.new) }
{
    if skip_items::<Lent<'v>, T, S>(stream, items) {
        return Ok(());
    }
    stream_each(stream, items)
}

/// Makes the calls of a sequence of these items.
fn stream_each<'v, T: Value<'v, Lent<'v>>, S: Stream<Lent<'v>>>(
    stream: &mut S,
    items: &'v [T],
) -> Result
    ensures { Emits S.law result
        (S.standing stream.old) (seq_emission T.emission items.now) (S.standing stream.new) }
{
    stream.seq_begin(Some(items.len()))?;
    for item in items {
        stream_item(stream, item)?;
    }
    stream.seq_end()
}

impl<'v, 'a, T: Value<'v, Lent<'v>>> Value<'v, Lent<'v>> for &'a [T] {
    ghost emission = { λ items. seq_emission T.emission items.now };

    fn stream<S: Stream<Lent<'v>>>(&'v self, stream: &mut S) -> Result {
        stream_seq(stream, self)
    }
}

impl<'v, T: Value<'v, Lent<'v>>> Value<'v, Lent<'v>> for Vec<T> {
    ghost emission = { λ items. seq_emission T.emission items.items };

    fn stream<S: Stream<Lent<'v>>>(&'v self, stream: &mut S) -> Result {
        stream_seq(stream, self.as_slice())
    }
}
