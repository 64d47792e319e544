//! Tuples of one to twelve fields, each under its place.

ghost use Rattle.std.specs.Prelude.{[], ◌∷◌};
ghost use Rattle.sval_core.specs.Values.{tuple_emission};

use crate::stream::Stream;
use crate::value::Value;
use crate::values::tuple_streaming::TupleStreaming;
use sval_label::{Lent, Result};

impl<'v, A: Value<'v, Lent<'v>>> Value<'v, Lent<'v>> for (A,) {
    ghost emission = { λ tuple. tuple_emission (A.emission tuple.0 ∷ []) };

    fn stream<S: Stream<Lent<'v>>>(&'v self, stream: &mut S) -> Result {
        TupleStreaming::begin(stream, 1)
            .field(stream, 0, &self.0)
            .end(stream)
    }
}

impl<'v, A: Value<'v, Lent<'v>>, B: Value<'v, Lent<'v>>> Value<'v, Lent<'v>> for (A, B) {
    ghost emission = { λ tuple. tuple_emission (A.emission tuple.0 ∷ B.emission tuple.1 ∷ []) };

    fn stream<S: Stream<Lent<'v>>>(&'v self, stream: &mut S) -> Result {
        TupleStreaming::begin(stream, 2)
            .field(stream, 0, &self.0)
            .field(stream, 1, &self.1)
            .end(stream)
    }
}

impl<'v, A: Value<'v, Lent<'v>>, B: Value<'v, Lent<'v>>, C: Value<'v, Lent<'v>>> Value<'v, Lent<'v>>
    for (A, B, C) {
    ghost emission = { λ tuple. tuple_emission (A.emission tuple.0 ∷ B.emission tuple.1 ∷ C.emission tuple.2 ∷
        []) };

    fn stream<S: Stream<Lent<'v>>>(&'v self, stream: &mut S) -> Result {
        TupleStreaming::begin(stream, 3)
            .field(stream, 0, &self.0)
            .field(stream, 1, &self.1)
            .field(stream, 2, &self.2)
            .end(stream)
    }
}

impl<
    'v,
    A: Value<'v, Lent<'v>>,
    B: Value<'v, Lent<'v>>,
    C: Value<'v, Lent<'v>>,
    D: Value<'v, Lent<'v>>,
> Value<'v, Lent<'v>> for (A, B, C, D) {
    ghost emission = { λ tuple. tuple_emission (A.emission tuple.0 ∷ B.emission tuple.1 ∷ C.emission tuple.2 ∷
        D.emission tuple.3 ∷ []) };

    fn stream<S: Stream<Lent<'v>>>(&'v self, stream: &mut S) -> Result {
        TupleStreaming::begin(stream, 4)
            .field(stream, 0, &self.0)
            .field(stream, 1, &self.1)
            .field(stream, 2, &self.2)
            .field(stream, 3, &self.3)
            .end(stream)
    }
}

impl<
    'v,
    A: Value<'v, Lent<'v>>,
    B: Value<'v, Lent<'v>>,
    C: Value<'v, Lent<'v>>,
    D: Value<'v, Lent<'v>>,
    E: Value<'v, Lent<'v>>,
> Value<'v, Lent<'v>> for (A, B, C, D, E) {
    ghost emission = { λ tuple. tuple_emission (A.emission tuple.0 ∷ B.emission tuple.1 ∷ C.emission tuple.2 ∷
        D.emission tuple.3 ∷ E.emission tuple.4 ∷ []) };

    fn stream<S: Stream<Lent<'v>>>(&'v self, stream: &mut S) -> Result {
        TupleStreaming::begin(stream, 5)
            .field(stream, 0, &self.0)
            .field(stream, 1, &self.1)
            .field(stream, 2, &self.2)
            .field(stream, 3, &self.3)
            .field(stream, 4, &self.4)
            .end(stream)
    }
}

impl<
    'v,
    A: Value<'v, Lent<'v>>,
    B: Value<'v, Lent<'v>>,
    C: Value<'v, Lent<'v>>,
    D: Value<'v, Lent<'v>>,
    E: Value<'v, Lent<'v>>,
    F: Value<'v, Lent<'v>>,
> Value<'v, Lent<'v>> for (A, B, C, D, E, F) {
    ghost emission = { λ tuple. tuple_emission (A.emission tuple.0 ∷ B.emission tuple.1 ∷ C.emission tuple.2 ∷
        D.emission tuple.3 ∷ E.emission tuple.4 ∷ F.emission tuple.5 ∷ []) };

    fn stream<S: Stream<Lent<'v>>>(&'v self, stream: &mut S) -> Result {
        TupleStreaming::begin(stream, 6)
            .field(stream, 0, &self.0)
            .field(stream, 1, &self.1)
            .field(stream, 2, &self.2)
            .field(stream, 3, &self.3)
            .field(stream, 4, &self.4)
            .field(stream, 5, &self.5)
            .end(stream)
    }
}

impl<
    'v,
    A: Value<'v, Lent<'v>>,
    B: Value<'v, Lent<'v>>,
    C: Value<'v, Lent<'v>>,
    D: Value<'v, Lent<'v>>,
    E: Value<'v, Lent<'v>>,
    F: Value<'v, Lent<'v>>,
    G: Value<'v, Lent<'v>>,
> Value<'v, Lent<'v>> for (A, B, C, D, E, F, G) {
    ghost emission = { λ tuple. tuple_emission (A.emission tuple.0 ∷ B.emission tuple.1 ∷ C.emission tuple.2 ∷
        D.emission tuple.3 ∷ E.emission tuple.4 ∷ F.emission tuple.5 ∷ G.emission tuple.6 ∷ []) };

    fn stream<S: Stream<Lent<'v>>>(&'v self, stream: &mut S) -> Result {
        TupleStreaming::begin(stream, 7)
            .field(stream, 0, &self.0)
            .field(stream, 1, &self.1)
            .field(stream, 2, &self.2)
            .field(stream, 3, &self.3)
            .field(stream, 4, &self.4)
            .field(stream, 5, &self.5)
            .field(stream, 6, &self.6)
            .end(stream)
    }
}

impl<
    'v,
    A: Value<'v, Lent<'v>>,
    B: Value<'v, Lent<'v>>,
    C: Value<'v, Lent<'v>>,
    D: Value<'v, Lent<'v>>,
    E: Value<'v, Lent<'v>>,
    F: Value<'v, Lent<'v>>,
    G: Value<'v, Lent<'v>>,
    H: Value<'v, Lent<'v>>,
> Value<'v, Lent<'v>> for (A, B, C, D, E, F, G, H) {
    ghost emission = { λ tuple. tuple_emission (A.emission tuple.0 ∷ B.emission tuple.1 ∷ C.emission tuple.2 ∷
        D.emission tuple.3 ∷ E.emission tuple.4 ∷ F.emission tuple.5 ∷ G.emission tuple.6 ∷
        H.emission tuple.7 ∷ []) };

    fn stream<S: Stream<Lent<'v>>>(&'v self, stream: &mut S) -> Result {
        TupleStreaming::begin(stream, 8)
            .field(stream, 0, &self.0)
            .field(stream, 1, &self.1)
            .field(stream, 2, &self.2)
            .field(stream, 3, &self.3)
            .field(stream, 4, &self.4)
            .field(stream, 5, &self.5)
            .field(stream, 6, &self.6)
            .field(stream, 7, &self.7)
            .end(stream)
    }
}

impl<
    'v,
    A: Value<'v, Lent<'v>>,
    B: Value<'v, Lent<'v>>,
    C: Value<'v, Lent<'v>>,
    D: Value<'v, Lent<'v>>,
    E: Value<'v, Lent<'v>>,
    F: Value<'v, Lent<'v>>,
    G: Value<'v, Lent<'v>>,
    H: Value<'v, Lent<'v>>,
    I: Value<'v, Lent<'v>>,
> Value<'v, Lent<'v>> for (A, B, C, D, E, F, G, H, I) {
    ghost emission = { λ tuple. tuple_emission (A.emission tuple.0 ∷ B.emission tuple.1 ∷ C.emission tuple.2 ∷
        D.emission tuple.3 ∷ E.emission tuple.4 ∷ F.emission tuple.5 ∷ G.emission tuple.6 ∷
        H.emission tuple.7 ∷ I.emission tuple.8 ∷ []) };

    fn stream<S: Stream<Lent<'v>>>(&'v self, stream: &mut S) -> Result {
        TupleStreaming::begin(stream, 9)
            .field(stream, 0, &self.0)
            .field(stream, 1, &self.1)
            .field(stream, 2, &self.2)
            .field(stream, 3, &self.3)
            .field(stream, 4, &self.4)
            .field(stream, 5, &self.5)
            .field(stream, 6, &self.6)
            .field(stream, 7, &self.7)
            .field(stream, 8, &self.8)
            .end(stream)
    }
}

impl<
    'v,
    A: Value<'v, Lent<'v>>,
    B: Value<'v, Lent<'v>>,
    C: Value<'v, Lent<'v>>,
    D: Value<'v, Lent<'v>>,
    E: Value<'v, Lent<'v>>,
    F: Value<'v, Lent<'v>>,
    G: Value<'v, Lent<'v>>,
    H: Value<'v, Lent<'v>>,
    I: Value<'v, Lent<'v>>,
    J: Value<'v, Lent<'v>>,
> Value<'v, Lent<'v>> for (A, B, C, D, E, F, G, H, I, J) {
    ghost emission = { λ tuple. tuple_emission (A.emission tuple.0 ∷ B.emission tuple.1 ∷ C.emission tuple.2 ∷
        D.emission tuple.3 ∷ E.emission tuple.4 ∷ F.emission tuple.5 ∷ G.emission tuple.6 ∷
        H.emission tuple.7 ∷ I.emission tuple.8 ∷ J.emission tuple.9 ∷ []) };

    fn stream<S: Stream<Lent<'v>>>(&'v self, stream: &mut S) -> Result {
        TupleStreaming::begin(stream, 10)
            .field(stream, 0, &self.0)
            .field(stream, 1, &self.1)
            .field(stream, 2, &self.2)
            .field(stream, 3, &self.3)
            .field(stream, 4, &self.4)
            .field(stream, 5, &self.5)
            .field(stream, 6, &self.6)
            .field(stream, 7, &self.7)
            .field(stream, 8, &self.8)
            .field(stream, 9, &self.9)
            .end(stream)
    }
}

impl<
    'v,
    A: Value<'v, Lent<'v>>,
    B: Value<'v, Lent<'v>>,
    C: Value<'v, Lent<'v>>,
    D: Value<'v, Lent<'v>>,
    E: Value<'v, Lent<'v>>,
    F: Value<'v, Lent<'v>>,
    G: Value<'v, Lent<'v>>,
    H: Value<'v, Lent<'v>>,
    I: Value<'v, Lent<'v>>,
    J: Value<'v, Lent<'v>>,
    K: Value<'v, Lent<'v>>,
> Value<'v, Lent<'v>> for (A, B, C, D, E, F, G, H, I, J, K) {
    ghost emission = { λ tuple. tuple_emission (A.emission tuple.0 ∷ B.emission tuple.1 ∷ C.emission tuple.2 ∷
        D.emission tuple.3 ∷ E.emission tuple.4 ∷ F.emission tuple.5 ∷ G.emission tuple.6 ∷
        H.emission tuple.7 ∷ I.emission tuple.8 ∷ J.emission tuple.9 ∷ K.emission tuple.10 ∷ []) };

    fn stream<S: Stream<Lent<'v>>>(&'v self, stream: &mut S) -> Result {
        TupleStreaming::begin(stream, 11)
            .field(stream, 0, &self.0)
            .field(stream, 1, &self.1)
            .field(stream, 2, &self.2)
            .field(stream, 3, &self.3)
            .field(stream, 4, &self.4)
            .field(stream, 5, &self.5)
            .field(stream, 6, &self.6)
            .field(stream, 7, &self.7)
            .field(stream, 8, &self.8)
            .field(stream, 9, &self.9)
            .field(stream, 10, &self.10)
            .end(stream)
    }
}

impl<
    'v,
    A: Value<'v, Lent<'v>>,
    B: Value<'v, Lent<'v>>,
    C: Value<'v, Lent<'v>>,
    D: Value<'v, Lent<'v>>,
    E: Value<'v, Lent<'v>>,
    F: Value<'v, Lent<'v>>,
    G: Value<'v, Lent<'v>>,
    H: Value<'v, Lent<'v>>,
    I: Value<'v, Lent<'v>>,
    J: Value<'v, Lent<'v>>,
    K: Value<'v, Lent<'v>>,
    L: Value<'v, Lent<'v>>,
> Value<'v, Lent<'v>> for (A, B, C, D, E, F, G, H, I, J, K, L) {
    ghost emission = { λ tuple. tuple_emission (A.emission tuple.0 ∷ B.emission tuple.1 ∷ C.emission tuple.2 ∷
        D.emission tuple.3 ∷ E.emission tuple.4 ∷ F.emission tuple.5 ∷ G.emission tuple.6 ∷
        H.emission tuple.7 ∷ I.emission tuple.8 ∷ J.emission tuple.9 ∷ K.emission tuple.10 ∷
        L.emission tuple.11 ∷ []) };

    fn stream<S: Stream<Lent<'v>>>(&'v self, stream: &mut S) -> Result {
        TupleStreaming::begin(stream, 12)
            .field(stream, 0, &self.0)
            .field(stream, 1, &self.1)
            .field(stream, 2, &self.2)
            .field(stream, 3, &self.3)
            .field(stream, 4, &self.4)
            .field(stream, 5, &self.5)
            .field(stream, 6, &self.6)
            .field(stream, 7, &self.7)
            .field(stream, 8, &self.8)
            .field(stream, 9, &self.9)
            .field(stream, 10, &self.10)
            .field(stream, 11, &self.11)
            .end(stream)
    }
}
