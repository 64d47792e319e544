//! How a tuple is streamed, field by field.

ghost use Rattle.std.specs.Prelude.{◌≡◌, List, None, Some};
ghost use Rattle.sval_label.specs.Calls.{Begin, PartBegin, PartEnd, Place, Tuple};
ghost use Rattle.sval_core.specs.Law.{Standing, Emission, Answers, Emits, emits, then_emits};
ghost use Rattle.sval_core.specs.Names.{no_name, offset};
ghost use Rattle.sval_core.specs.Values.{part_emission, tuple_emission, begun_tuple};

use crate::stream::Stream;
use crate::value::Value;
use crate::values::names::place;
use sval_label::{Lending, Lent, Result};

/// Begins the value of a tuple at the index `number`.
fn begin_value<L: Lending, S: Stream<L>>(stream: &mut S, number: usize) -> Result
    ensures { Answers S.law result
        (S.standing stream.old) (PartBegin (Place None (offset number))) (S.standing stream.new) }
{
    stream.tuple_value_begin(None, &place(number))
}

/// Ends the value of a tuple at the index `number`.
fn end_value<L: Lending, S: Stream<L>>(stream: &mut S, number: usize) -> Result
    ensures { Answers S.law result
        (S.standing stream.old) (PartEnd (Place None (offset number))) (S.standing stream.new) }
{
    stream.tuple_value_end(None, &place(number))
}

/// Streams `value` as the value of a tuple at the index `number`, between `tuple_value_begin` and `tuple_value_end`.
#[tactic(auto, using(crate::proofs::Between::of_between))]
pub fn stream_tuple_value<'v, L: Lending, T: Value<'v, L>, S: Stream<L>>(
    stream: &mut S,
    number: usize,
    value: &'v T,
) -> Result
    ensures { Emits S.law result (S.standing stream.old)
        (part_emission (Place None (offset number)) (T.emission value.now)) (S.standing stream.new) }
{
    begin_value(stream, number)?;
    value.stream(stream)?;
    end_value(stream, number)
}

/// A tuple without a name that is streamed field by field, as std's `DebugTuple` prints one. Nothing more is streamed
/// once a call was refused.
#[derive(Clone, Copy)]
pub(crate) struct TupleStreaming {
    /// Whether each call so far was taken.
    result: Result,
}

impl TupleStreaming {
    /// Begins a tuple of `size` fields.
    #[tactic(auto, using(crate::proofs::Emissions::emits_one))]
    pub(crate) fn begin<'v, S: Stream<Lent<'v>>>(stream: &mut S, size: usize) -> Self
        ensures { Emits S.law result.result (S.standing stream.old)
            (emits (Begin (Tuple no_name) (Some size))) (S.standing stream.new) }
    {
        TupleStreaming {
            result: stream.tuple_begin(None, None, None, Some(size)),
        }
    }

    /// Streams the field at this place.
    pub(crate) fn field<'v, T: Value<'v, Lent<'v>>, S: Stream<Lent<'v>>>(
        self,
        stream: &mut S,
        number: usize,
        field: &'v T,
    ) -> Self
        ensures { (start : Standing S.View) (before : Emission)
            → Emits S.law self.result start before (S.standing stream.old)
            → Emits S.law result.result start
            (then_emits before (part_emission (Place None (offset number)) (T.emission field.now)))
            (S.standing stream.new) }
    {
        match self.result {
            Ok(()) => TupleStreaming {
                result: stream_tuple_value(stream, number, field),
            },
            Err(_) => self,
        }
    }

    /// Ends the tuple.
    pub(crate) fn end<'v, S: Stream<Lent<'v>>>(self, stream: &mut S) -> Result
        ensures { (start : Standing S.View) (fields : List Emission)
            → Emits S.law self.result start (begun_tuple fields) (S.standing stream.old)
            → Emits S.law result start (tuple_emission fields) (S.standing stream.new) }
    {
        self.result?;
        stream.tuple_end(None, None, None)
    }
}
