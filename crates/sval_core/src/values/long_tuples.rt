//! Tuples of thirteen to sixteen fields, each under its place.
//!
//! In clauses a tuple of thirteen to sixteen fields is a pair of its first field and of those after it: `tuple.1.1.0`
//! is the third field.

ghost use Rattle.std.specs.Prelude.{[], ◌∷◌};
ghost use Rattle.sval_core.specs.Values.{tuple_emission};

use crate::stream::Stream;
use crate::value::Value;
use crate::values::tuple_streaming::TupleStreaming;
use sval_label::{Lent, Result};

impl<
    'v,
    A: Value<'v, Lent<'v>>,
    B: Value<'v, Lent<'v>>,
    C: Value<'v, Lent<'v>>,
    D: Value<'v, Lent<'v>>,
    E: Value<'v, Lent<'v>>,
    F: Value<'v, Lent<'v>>,
    G: Value<'v, Lent<'v>>,
    H: Value<'v, Lent<'v>>,
    I: Value<'v, Lent<'v>>,
    J: Value<'v, Lent<'v>>,
    K: Value<'v, Lent<'v>>,
    L: Value<'v, Lent<'v>>,
    M: Value<'v, Lent<'v>>,
> Value<'v, Lent<'v>> for (A, B, C, D, E, F, G, H, I, J, K, L, M) {
    ghost emission = { λ tuple. tuple_emission (A.emission tuple.0 ∷ B.emission tuple.1.0 ∷ C.emission tuple.1.1.0 ∷
        D.emission tuple.1.1.1.0 ∷ E.emission tuple.1.1.1.1.0 ∷ F.emission tuple.1.1.1.1.1.0 ∷
        G.emission tuple.1.1.1.1.1.1.0 ∷ H.emission tuple.1.1.1.1.1.1.1.0 ∷ I.emission tuple.1.1.1.1.1.1.1.1.0 ∷
        J.emission tuple.1.1.1.1.1.1.1.1.1.0 ∷ K.emission tuple.1.1.1.1.1.1.1.1.1.1.0 ∷
        L.emission tuple.1.1.1.1.1.1.1.1.1.1.1.0 ∷ M.emission tuple.1.1.1.1.1.1.1.1.1.1.1.1.0 ∷ []) };

    fn stream<S: Stream<Lent<'v>>>(&'v self, stream: &mut S) -> Result {
        TupleStreaming::begin(stream, 13)
            .field(stream, 0, &self.0)
            .field(stream, 1, &self.1)
            .field(stream, 2, &self.2)
            .field(stream, 3, &self.3)
            .field(stream, 4, &self.4)
            .field(stream, 5, &self.5)
            .field(stream, 6, &self.6)
            .field(stream, 7, &self.7)
            .field(stream, 8, &self.8)
            .field(stream, 9, &self.9)
            .field(stream, 10, &self.10)
            .field(stream, 11, &self.11)
            .field(stream, 12, &self.12)
            .end(stream)
    }
}

impl<
    'v,
    A: Value<'v, Lent<'v>>,
    B: Value<'v, Lent<'v>>,
    C: Value<'v, Lent<'v>>,
    D: Value<'v, Lent<'v>>,
    E: Value<'v, Lent<'v>>,
    F: Value<'v, Lent<'v>>,
    G: Value<'v, Lent<'v>>,
    H: Value<'v, Lent<'v>>,
    I: Value<'v, Lent<'v>>,
    J: Value<'v, Lent<'v>>,
    K: Value<'v, Lent<'v>>,
    L: Value<'v, Lent<'v>>,
    M: Value<'v, Lent<'v>>,
    N: Value<'v, Lent<'v>>,
> Value<'v, Lent<'v>> for (A, B, C, D, E, F, G, H, I, J, K, L, M, N) {
    ghost emission = { λ tuple. tuple_emission (A.emission tuple.0 ∷ B.emission tuple.1.0 ∷ C.emission tuple.1.1.0 ∷
        D.emission tuple.1.1.1.0 ∷ E.emission tuple.1.1.1.1.0 ∷ F.emission tuple.1.1.1.1.1.0 ∷
        G.emission tuple.1.1.1.1.1.1.0 ∷ H.emission tuple.1.1.1.1.1.1.1.0 ∷ I.emission tuple.1.1.1.1.1.1.1.1.0 ∷
        J.emission tuple.1.1.1.1.1.1.1.1.1.0 ∷ K.emission tuple.1.1.1.1.1.1.1.1.1.1.0 ∷
        L.emission tuple.1.1.1.1.1.1.1.1.1.1.1.0 ∷ M.emission tuple.1.1.1.1.1.1.1.1.1.1.1.1.0 ∷
        N.emission tuple.1.1.1.1.1.1.1.1.1.1.1.1.1.0 ∷ []) };

    fn stream<S: Stream<Lent<'v>>>(&'v self, stream: &mut S) -> Result {
        TupleStreaming::begin(stream, 14)
            .field(stream, 0, &self.0)
            .field(stream, 1, &self.1)
            .field(stream, 2, &self.2)
            .field(stream, 3, &self.3)
            .field(stream, 4, &self.4)
            .field(stream, 5, &self.5)
            .field(stream, 6, &self.6)
            .field(stream, 7, &self.7)
            .field(stream, 8, &self.8)
            .field(stream, 9, &self.9)
            .field(stream, 10, &self.10)
            .field(stream, 11, &self.11)
            .field(stream, 12, &self.12)
            .field(stream, 13, &self.13)
            .end(stream)
    }
}

impl<
    'v,
    A: Value<'v, Lent<'v>>,
    B: Value<'v, Lent<'v>>,
    C: Value<'v, Lent<'v>>,
    D: Value<'v, Lent<'v>>,
    E: Value<'v, Lent<'v>>,
    F: Value<'v, Lent<'v>>,
    G: Value<'v, Lent<'v>>,
    H: Value<'v, Lent<'v>>,
    I: Value<'v, Lent<'v>>,
    J: Value<'v, Lent<'v>>,
    K: Value<'v, Lent<'v>>,
    L: Value<'v, Lent<'v>>,
    M: Value<'v, Lent<'v>>,
    N: Value<'v, Lent<'v>>,
    O: Value<'v, Lent<'v>>,
> Value<'v, Lent<'v>> for (A, B, C, D, E, F, G, H, I, J, K, L, M, N, O) {
    ghost emission = { λ tuple. tuple_emission (A.emission tuple.0 ∷ B.emission tuple.1.0 ∷ C.emission tuple.1.1.0 ∷
        D.emission tuple.1.1.1.0 ∷ E.emission tuple.1.1.1.1.0 ∷ F.emission tuple.1.1.1.1.1.0 ∷
        G.emission tuple.1.1.1.1.1.1.0 ∷ H.emission tuple.1.1.1.1.1.1.1.0 ∷ I.emission tuple.1.1.1.1.1.1.1.1.0 ∷
        J.emission tuple.1.1.1.1.1.1.1.1.1.0 ∷ K.emission tuple.1.1.1.1.1.1.1.1.1.1.0 ∷
        L.emission tuple.1.1.1.1.1.1.1.1.1.1.1.0 ∷ M.emission tuple.1.1.1.1.1.1.1.1.1.1.1.1.0 ∷
        N.emission tuple.1.1.1.1.1.1.1.1.1.1.1.1.1.0 ∷ O.emission tuple.1.1.1.1.1.1.1.1.1.1.1.1.1.1.0 ∷ []) };

    fn stream<S: Stream<Lent<'v>>>(&'v self, stream: &mut S) -> Result {
        TupleStreaming::begin(stream, 15)
            .field(stream, 0, &self.0)
            .field(stream, 1, &self.1)
            .field(stream, 2, &self.2)
            .field(stream, 3, &self.3)
            .field(stream, 4, &self.4)
            .field(stream, 5, &self.5)
            .field(stream, 6, &self.6)
            .field(stream, 7, &self.7)
            .field(stream, 8, &self.8)
            .field(stream, 9, &self.9)
            .field(stream, 10, &self.10)
            .field(stream, 11, &self.11)
            .field(stream, 12, &self.12)
            .field(stream, 13, &self.13)
            .field(stream, 14, &self.14)
            .end(stream)
    }
}

impl<
    'v,
    A: Value<'v, Lent<'v>>,
    B: Value<'v, Lent<'v>>,
    C: Value<'v, Lent<'v>>,
    D: Value<'v, Lent<'v>>,
    E: Value<'v, Lent<'v>>,
    F: Value<'v, Lent<'v>>,
    G: Value<'v, Lent<'v>>,
    H: Value<'v, Lent<'v>>,
    I: Value<'v, Lent<'v>>,
    J: Value<'v, Lent<'v>>,
    K: Value<'v, Lent<'v>>,
    L: Value<'v, Lent<'v>>,
    M: Value<'v, Lent<'v>>,
    N: Value<'v, Lent<'v>>,
    O: Value<'v, Lent<'v>>,
    P: Value<'v, Lent<'v>>,
> Value<'v, Lent<'v>> for (A, B, C, D, E, F, G, H, I, J, K, L, M, N, O, P) {
    ghost emission = { λ tuple. tuple_emission (A.emission tuple.0 ∷ B.emission tuple.1.0 ∷ C.emission tuple.1.1.0 ∷
        D.emission tuple.1.1.1.0 ∷ E.emission tuple.1.1.1.1.0 ∷ F.emission tuple.1.1.1.1.1.0 ∷
        G.emission tuple.1.1.1.1.1.1.0 ∷ H.emission tuple.1.1.1.1.1.1.1.0 ∷ I.emission tuple.1.1.1.1.1.1.1.1.0 ∷
        J.emission tuple.1.1.1.1.1.1.1.1.1.0 ∷ K.emission tuple.1.1.1.1.1.1.1.1.1.1.0 ∷
        L.emission tuple.1.1.1.1.1.1.1.1.1.1.1.0 ∷ M.emission tuple.1.1.1.1.1.1.1.1.1.1.1.1.0 ∷
        N.emission tuple.1.1.1.1.1.1.1.1.1.1.1.1.1.0 ∷ O.emission tuple.1.1.1.1.1.1.1.1.1.1.1.1.1.1.0 ∷
        P.emission tuple.1.1.1.1.1.1.1.1.1.1.1.1.1.1.1.0 ∷ []) };

    fn stream<S: Stream<Lent<'v>>>(&'v self, stream: &mut S) -> Result {
        TupleStreaming::begin(stream, 16)
            .field(stream, 0, &self.0)
            .field(stream, 1, &self.1)
            .field(stream, 2, &self.2)
            .field(stream, 3, &self.3)
            .field(stream, 4, &self.4)
            .field(stream, 5, &self.5)
            .field(stream, 6, &self.6)
            .field(stream, 7, &self.7)
            .field(stream, 8, &self.8)
            .field(stream, 9, &self.9)
            .field(stream, 10, &self.10)
            .field(stream, 11, &self.11)
            .field(stream, 12, &self.12)
            .field(stream, 13, &self.13)
            .field(stream, 14, &self.14)
            .field(stream, 15, &self.15)
            .end(stream)
    }
}
