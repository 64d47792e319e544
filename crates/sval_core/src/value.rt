//! What makes calls.

ghost use Rattle.sval_core.specs.Law.{Emission, Emits};

use crate::stream::Stream;
use sval_label::{Lending, Result};

/// What makes calls: the same ones, in the same order, whichever stream takes them.
///
/// A value passes on the first refusal. It refuses by itself only after all its calls, and only if it always does.
///
/// # A value of your own
///
/// A type says its calls in `specs/`, with the words of `specs/ValueCalls.antt`, and makes them, each with a `?`:
///
/// ```antt
/// -- a text, or a number
/// abbrev pub reading_calls : Reading → List Call
/// reading_calls (Note text) = text_calls true (string_bytes text)
/// reading_calls (Measure n) = Int I64 n ∷ []
/// ```
///
/// ```
/// impl<'v> Value<'v, Lent<'v>> for Reading {
///     ghost emission = { λ reading. makes (reading_calls reading) };
///
///     fn stream<S: Stream<Lent<'v>>>(&'v self, stream: &mut S) -> Result {
///         match self {
///             Reading::Note(text) => {
///                 stream.text_begin(Some(text.len()))?;
///                 stream.text_fragment(text.as_str())?;
///                 stream.text_end()
///             }
///             Reading::Measure(number) => stream.i64(*number),
///         }
///     }
/// }
/// ```
///
/// This code is proved as written. `proofs/ValueProofs.antt` says what a loop over parts wants, and how a value's calls
/// are shown to spell its tree. The crate `readings` has all of it, proved.
pub trait Value<'v, L: Lending> {
    /// The calls that it makes, and whether it refuses after them.
    ghost emission: { Self → Emission };

    /// Streams this value into a stream.
    ///
    /// On `Ok` each call was taken, and this value doesn't refuse. On an `Err` the first calls were taken, and then the
    /// stream refused the next one, or there was none left and this value refuses.
    fn stream<S: Stream<L>>(&'v self, stream: &mut S) -> Result
        ensures { Emits S.law result (S.standing stream.old) (emission self.now) (S.standing stream.new) };
}
