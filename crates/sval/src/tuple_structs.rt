//! Tuple structs and tuple variants, structs that hold one value, and structs that hold nothing.

ghost use Rattle.std.specs.Prelude.{◌≡◌, ◌^◌, ◌<◌, true, false, length, Some};
ghost use Rattle.sval_label.specs.Calls.{Begin, End, TaggedBegin, TaggedEnd, Tuple};
ghost use Rattle.sval_core.specs.Law.{Answers, Emits};
ghost use Rattle.sval_core.specs.Values.{container_emission, places_emission};
ghost use Rattle.sval_core.specs.OneValue.{EachIsOneValue, TakesAnyValue};
ghost use Rattle.sval.specs.Structs.{type_name, variant_name, unit_struct_emission, newtype_emission, tuple_struct_emission, tuple_variant_emission};

use crate::fields::{Named, identifier, place};
use crate::structs::{begin_enum, end_enum};
use crate::tuple_fields::TupleFields;
use sval_core::{Lending, Result, Stream, Value, skip_around};

/// Streams a struct without fields, as sval's derive does: a tag that is its name. JSON has the name as a text.
///
/// ```
/// impl<'v> Value<'v, Lent<'v>> for Origin {
///     ghost emission = { λ _. unit_struct "Origin" };
///
///     fn stream<S: Stream<Lent<'v>>>(&'v self, stream: &mut S) -> Result {
///         stream_unit_struct(stream, "Origin")
///     }
/// }
/// ```
///
/// # Errors
///
/// It refuses where the stream refuses the tag.
#[tactic(auto, unfolding(sval_core::specs::Law::emits, crate::specs::Structs::unit_struct_emission))]
pub fn stream_unit_struct<L: Lending, N: Named, S: Stream<L>>(stream: &mut S, name: N) -> Result
    ensures { Emits S.law result
        (S.standing stream.old) (unit_struct_emission (N.text name)) (S.standing stream.new) }
{
    stream.tag(None, Some(&identifier(name)), None)
}

/// Skips what holds these fields, where the stream asks if it is whole and each of them surely is.
fn skip_fields<'v, L: Lending, F: TupleFields<'v, L>, S: Stream<L>>(
    stream: &mut S,
    fields: F,
) -> bool
    ensures whole { result ≡ true → EachIsOneValue (λ value. value) (F.listed fields) }
    ensures skipped { result ≡ true → TakesAnyValue S.law (S.standing stream.old) (S.standing stream.new) }
    ensures left { result ≡ false → S.standing stream.new ≡ S.standing stream.old }
{
    if !stream.asks_if_whole() || !fields.are_whole() {
        return false;
    }
    stream.skip_value()
}

/// Begins a struct that holds one value.
fn begin_newtype<L: Lending, N: Named, S: Stream<L>>(stream: &mut S, name: N) -> Result
    ensures { Answers S.law result
        (S.standing stream.old) (TaggedBegin (type_name (N.text name))) (S.standing stream.new) }
{
    stream.tagged_begin(None, Some(&identifier(name)), None)
}

/// Ends a struct that holds one value.
fn end_newtype<L: Lending, N: Named, S: Stream<L>>(stream: &mut S, name: N) -> Result
    ensures { Answers S.law result
        (S.standing stream.old) (TaggedEnd (type_name (N.text name))) (S.standing stream.new) }
{
    stream.tagged_end(None, Some(&identifier(name)), None)
}

/// Streams a tuple struct of one field, as sval's derive does: `value`, tagged with the name of the struct. JSON has
/// the value alone.
///
/// ```
/// impl<'v> Value<'v, Lent<'v>> for Metres {
///     ghost emission = { λ metres. newtype "Metres" (u32_emission metres.0) };
///
///     fn stream<S: Stream<Lent<'v>>>(&'v self, stream: &mut S) -> Result {
///         stream_newtype(stream, "Metres", &self.0)
///     }
/// }
/// ```
///
/// # Errors
///
/// It refuses where the value refuses by itself, after its calls, or at the first call that the stream refuses.
pub fn stream_newtype<'v, L: Lending, N: Named, T: Value<'v, L>, S: Stream<L>>(
    stream: &mut S,
    name: N,
    value: &'v T,
) -> Result
    ensures { Emits S.law result (S.standing stream.old)
        (newtype_emission (N.text name) (T.emission value.now)) (S.standing stream.new) }
{
    if skip_around(stream, value) {
        return Ok(());
    }
    begin_newtype(stream, name)?;
    value.stream(stream)?;
    end_newtype(stream, name)
}

/// Begins the tuple of a struct.
fn begin_struct<L: Lending, N: Named, S: Stream<L>>(stream: &mut S, name: N, size: usize) -> Result
    ensures { Answers S.law result
        (S.standing stream.old) (Begin (Tuple (type_name (N.text name))) (Some size)) (S.standing stream.new) }
{
    stream.tuple_begin(None, Some(&identifier(name)), None, Some(size))
}

/// Ends the tuple of a struct.
fn end_struct<L: Lending, N: Named, S: Stream<L>>(stream: &mut S, name: N) -> Result
    ensures { Answers S.law result
        (S.standing stream.old) (End (Tuple (type_name (N.text name)))) (S.standing stream.new) }
{
    stream.tuple_end(None, Some(&identifier(name)), None)
}

/// Streams a tuple struct, as sval's derive does: a tuple with the name of the struct, in which each field has its
/// index. JSON has an array.
///
/// ```
/// impl<'v> Value<'v, Lent<'v>> for Point {
///     ghost emission = { λ point. tuple_struct "Point" (i32_emission point.0 ∷ i32_emission point.1 ∷ []) };
///
///     fn stream<S: Stream<Lent<'v>>>(&'v self, stream: &mut S) -> Result {
///         stream_tuple_struct(stream, "Point", fields!(self, 0, 1))
///     }
/// }
/// ```
///
/// # Errors
///
/// It refuses where a field refuses by itself, after its calls, or at the first call that the stream refuses.
pub fn stream_tuple_struct<'v, L: Lending, N: Named, F: TupleFields<'v, L>, S: Stream<L>>(
    stream: &mut S,
    name: N,
    fields: F,
) -> Result
    requires { length (F.listed fields) < 2 ^ 64 }
    ensures { Emits S.law result
        (S.standing stream.old) (tuple_struct_emission (N.text name) (F.listed fields)) (S.standing stream.new) }
{
    if skip_fields(stream, fields) {
        return Ok(());
    }
    begin_struct(stream, name, fields.count())?;
    fields.stream_fields(stream, 0)?;
    end_struct(stream, name)
}

/// Begins the tuple of a variant.
fn begin_variant<L: Lending, N: Named, S: Stream<L>>(
    stream: &mut S,
    variant: N,
    number: usize,
    size: usize,
) -> Result
    ensures { Answers S.law result (S.standing stream.old)
        (Begin (Tuple (variant_name (N.text variant) number)) (Some size)) (S.standing stream.new) }
{
    stream.tuple_begin(
        None,
        Some(&identifier(variant)),
        Some(&place(number)),
        Some(size),
    )
}

/// Ends the tuple of a variant.
fn end_variant<L: Lending, N: Named, S: Stream<L>>(
    stream: &mut S,
    variant: N,
    number: usize,
) -> Result
    ensures { Answers S.law result (S.standing stream.old)
        (End (Tuple (variant_name (N.text variant) number))) (S.standing stream.new) }
{
    stream.tuple_end(None, Some(&identifier(variant)), Some(&place(number)))
}

/// Streams fields as a tuple under the name of a variant.
fn stream_variant_fields<'v, L: Lending, N: Named, F: TupleFields<'v, L>, S: Stream<L>>(
    stream: &mut S,
    variant: N,
    number: usize,
    fields: F,
) -> Result
    requires { length (F.listed fields) < 2 ^ 64 }
    ensures { Emits S.law result (S.standing stream.old)
        (container_emission (Tuple (variant_name (N.text variant) number))
        (length (F.listed fields)) (places_emission 0 (F.listed fields)))
        (S.standing stream.new) }
{
    begin_variant(stream, variant, number, fields.count())?;
    fields.stream_fields(stream, 0)?;
    end_variant(stream, variant, number)
}

/// Streams a tuple variant. `name` is the name of the enum, and `number` the place of the variant in it, from 0.
///
/// The fields are nested pairs, since a variant's fields have no owner for [`fields!`](crate::fields) to name:
///
/// ```
/// match self {
///     Shape::Empty => stream_unit_variant(stream, "Shape", "Empty", 0),
///     Shape::Segment(from, to) => stream_tuple_variant(stream, "Shape", "Segment", 1, (from, (to, ()))),
/// }
/// ```
///
/// # Errors
///
/// Those of [`stream_tuple_struct`].
pub fn stream_tuple_variant<
    'v,
    L: Lending,
    N: Named,
    M: Named,
    F: TupleFields<'v, L>,
    S: Stream<L>,
>(stream: &mut S, name: N, variant: M, number: usize, fields: F) -> Result
    requires { length (F.listed fields) < 2 ^ 64 }
    ensures { Emits S.law result (S.standing stream.old)
        (tuple_variant_emission (N.text name) (M.text variant) number (F.listed fields)) (S.standing stream.new) }
{
    if skip_fields(stream, fields) {
        return Ok(());
    }
    begin_enum(stream, name)?;
    stream_variant_fields(stream, variant, number, fields)?;
    end_enum(stream, name)
}
