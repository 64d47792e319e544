//! The fields of tuple structs and of tuple variants.

ghost use Rattle.std.specs.Prelude.{◌≡◌, ◌+◌, ◌^◌, ◌<◌, true, List, [], ◌∷◌, length};
ghost use Rattle.sval_core.specs.Law.{Emission, Emits};
ghost use Rattle.sval_core.specs.OneValue.{EachIsOneValue};
ghost use Rattle.sval_core.specs.Values.{places_emission};

use sval_core::{Lending, Result, Stream, Value, is_surely_whole, stream_tuple_value};

/// References to the fields of a tuple struct or a tuple variant, in nested pairs: `()` for no field, and
/// `(&first, others)` for one before the others.
///
/// The macro [`fields!`](crate::fields) writes those of a tuple struct: `fields!(self, 0, 1)` for `self.0` and
/// `self.1`.
pub trait TupleFields<'v, L: Lending>: Copy {
    /// What the value of each field emits.
    ghost listed: { Self → List Emission };

    /// The number of fields.
    fn count(self) -> usize
        requires { length (listed self) < 2 ^ 64 }
        ensures { result ≡ length (listed self) };

    /// Whether the value of each field is surely whole, as [`is_surely_whole`] says.
    fn are_whole(self) -> bool
        ensures { result ≡ true → EachIsOneValue (λ value. value) (listed self) };

    /// Streams the fields of a tuple. `first` is the index of the first field.
    fn stream_fields<S: Stream<L>>(self, stream: &mut S, first: usize) -> Result
        requires { first + length (listed self) < 2 ^ 64 }
        ensures { Emits S.law result
            (S.standing stream.old) (places_emission first (listed self)) (S.standing stream.new) };
}

impl<'v, L: Lending> TupleFields<'v, L> for () {
    ghost listed = { λ _. [] };

    fn count(self) -> usize {
        0
    }

    fn are_whole(self) -> bool {
        true
    }

    #[tactic(auto, unfolding(sval_core::specs::Law::silent))]
    fn stream_fields<S: Stream<L>>(self, _stream: &mut S, _first: usize) -> Result {
        Ok(())
    }
}

impl<'v, L: Lending, T: Value<'v, L>, F: TupleFields<'v, L>> TupleFields<'v, L> for (&'v T, F) {
    ghost listed = { λ fields. T.emission fields.0.now ∷ F.listed fields.1 };

    fn count(self) -> usize {
        1 + self.1.count()
    }

    fn are_whole(self) -> bool {
        is_surely_whole::<L, T>(self.0) && self.1.are_whole()
    }

    #[tactic(auto, using(sval_core::proofs::ValueProofs::of_emissions))]
    fn stream_fields<S: Stream<L>>(self, stream: &mut S, first: usize) -> Result {
        stream_tuple_value(stream, first, self.0)?;
        self.1.stream_fields(stream, first + 1)
    }
}
