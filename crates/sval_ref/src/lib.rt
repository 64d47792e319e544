//! Values that lend texts for longer than they are borrowed themselves.
//!
//! A `Value` streamed from a `&'v` lends its texts for `'v`. A [`ValueRef`] of a type that holds texts of a longer
//! lifetime lends those for that lifetime, however short the borrow of the value itself is.
#![tactic(auto)]

ghost use Rattle.sval_core.specs.Law.{Emission, Emits};

use sval_core::{Lending, Result, Stream};

/// A value that can lend its borrowed texts for longer than it is borrowed itself.
///
/// It makes the same calls, in the same order, whichever stream takes them. A value passes on the first refusal. It
/// refuses by itself only after all its calls, and only if it always does.
///
/// ```
/// impl<'sval> ValueRef<Lent<'sval>> for Unit<'sval> {
///     ghost ref_emission = { λ unit. makes (text_calls true unit.name.now) };
///
///     fn stream_ref<S: Stream<Lent<'sval>>>(&self, stream: &mut S) -> Result {
///         stream.text_begin(Some(self.name.len()))?;
///         stream.text_fragment(self.name)?;
///         stream.text_end()
///     }
/// }
/// ```
///
/// This code is proved as written. The crate `readings` has it. `proofs/ValueProofs.antt` of `sval_core` says what a
/// loop wants.
pub trait ValueRef<L: Lending> {
    /// The calls that it makes, and whether it refuses after them.
    ghost ref_emission: { Self → Emission };

    /// Streams this value into a stream, which may keep the texts that are lent.
    ///
    /// On `Ok` each call was taken, and this value doesn't refuse. On an `Err` the first calls were taken, and then the
    /// stream refused the next one, or there was none left and this value refuses.
    fn stream_ref<S: Stream<L>>(&self, stream: &mut S) -> Result
        ensures { Emits S.law result (S.standing stream.old) (ref_emission self.now) (S.standing stream.new) };
}

/// Streams a value into a stream, which may keep the texts that are lent.
///
/// It answers as [`ValueRef::stream_ref`] does.
pub fn stream_ref<L: Lending, S: Stream<L>, V: ValueRef<L>>(stream: &mut S, value: &V) -> Result
    ensures { Emits S.law result (S.standing stream.old) (V.ref_emission value.now) (S.standing stream.new) }
{
    value.stream_ref(stream)
}

impl<'a, L: Lending, T: ValueRef<L>> ValueRef<L> for &'a T {
    ghost ref_emission = { λ value. T.ref_emission value.now };

    fn stream_ref<S: Stream<L>>(&self, stream: &mut S) -> Result {
        (**self).stream_ref(stream)
    }
}

impl<L: Lending, T: ValueRef<L>> ValueRef<L> for Box<T> {
    ghost ref_emission = { λ value. T.ref_emission value.value };

    fn stream_ref<S: Stream<L>>(&self, stream: &mut S) -> Result {
        self.as_ref().stream_ref(stream)
    }
}
