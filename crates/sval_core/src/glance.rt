//! Whether a value is surely whole, which most values show by their types.

ghost use Rattle.std.specs.Prelude.{◌≡◌, true, false};
ghost use Rattle.sval_label.specs.Made.{call_of};
ghost use Rattle.sval_core.specs.Law.{Answers};
ghost use Rattle.sval_core.specs.Checker.{State};
ghost use Rattle.sval_core.specs.OneValue.{IsOneValue, TakesAnyValue};
ghost use Rattle.sval_core.specs.Glances.{glance_law, glance_standing};

use crate::stream::Stream;
use crate::value::Value;
use sval_label::{AnyCall, Error, GroupedCall, Lending, Result};

/// Takes one value: of one call, or unseen by [`skip_value`](Stream::skip_value).
///
/// It refuses what begins by a call, so it takes no memory.
#[derive(Drop)]
pub(crate) struct Glance {
    /// A value was taken.
    is_whole: bool,
    /// The number of refusals, or the greatest `u64`.
    refused: u64,
}

impl<L: Lending> Stream<L> for Glance {
    ghost View = { State };

    ghost law = { glance_law };

    ghost standing = { glance_standing };

    #[inline(always)]
    fn take(&mut self, call: AnyCall<'_, L::Text, L::Bytes>) -> Result
        ensures { Answers glance_law result
            (glance_standing self.old) (call_of L.text L.bytes call.entry) (glance_standing self.new) }
    {
        match call.grouped() {
            GroupedCall::TagHint(_) => Ok(()),
            GroupedCall::Null | GroupedCall::Bool(_) | GroupedCall::Int(_) | GroupedCall::Tag(_)
                if !self.is_whole => {
                self.is_whole = true;
                Ok(())
            }
            _ => {
                self.refused = self.refused.saturating_add(1);
                Err(Error::new())
            }
        }
    }

    fn asks_if_whole(&self) -> bool {
        !self.is_whole
    }

    fn skip_value(&mut self) -> bool
        ensures skipped { result ≡ true
            → TakesAnyValue glance_law (glance_standing self.old) (glance_standing self.new) }
        ensures left { result ≡ false → glance_standing self.new ≡ glance_standing self.old }
    {
        if self.is_whole {
            return false;
        }
        self.is_whole = true;
        true
    }
}

/// Whether the calls of a value are known to be one whole value. `false` says nothing.
///
/// It asks the value by a stream that takes no begin, and no memory. Numbers, truth values, `char`, `&str`, `String` and
/// documents of JSON that were read are surely whole. An `Option`, a `Vec`, a slice, an array, a
/// `BTreeMap` and a struct by `stream_struct` are, if all their parts are. A value that makes a begin or a fragment
/// itself isn't.
///
/// ```
/// if !is_surely_whole(&value) {
///     check(alloc, &value)?;
/// }
/// ```
pub fn is_surely_whole<'v, L: Lending, V: Value<'v, L>>(value: &'v V) -> bool
    ensures { result ≡ true → IsOneValue (V.emission value.now) }
{
    let mut glance = Glance {
        is_whole: false,
        refused: 0,
    };
    match value.stream(&mut glance) {
        Ok(()) => glance.is_whole,
        Err(_) => false,
    }
}

/// Skips what holds this value alone, where the stream asks if it is whole and the value surely is.
pub fn skip_around<'v, L: Lending, T: Value<'v, L>, S: Stream<L>>(
    stream: &mut S,
    value: &'v T,
) -> bool
    ensures whole { result ≡ true → IsOneValue (T.emission value.now) }
    ensures skipped { result ≡ true → TakesAnyValue S.law (S.standing stream.old) (S.standing stream.new) }
    ensures left { result ≡ false → S.standing stream.new ≡ S.standing stream.old }
{
    if !stream.asks_if_whole() || !is_surely_whole::<L, T>(value) {
        return false;
    }
    stream.skip_value()
}
