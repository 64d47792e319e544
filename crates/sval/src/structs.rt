//! Structs and enums of a user's own.

ghost use Rattle.std.specs.Prelude.{◌≡◌, ◌^◌, ◌<◌, true, false, length, Some};
ghost use Rattle.sval_label.specs.Calls.{Begin, End, EnumBegin, EnumEnd, TaggedBegin, TaggedEnd, RecordTuple};
ghost use Rattle.sval_core.specs.Law.{Answers, Emits};
ghost use Rattle.sval_core.specs.Values.{container_emission, tag_emission, tagged_emission};
ghost use Rattle.sval_core.specs.OneValue.{TakesAnyValue};
ghost use Rattle.sval.specs.Structs.{record_emission, placed_emission, type_name, variant_name, struct_emission, unit_variant_emission, value_variant_emission, struct_variant_emission};
ghost use Rattle.sval.specs.StructTrees.{HoldWholeValues};

use crate::fields::{Fields, Named, identifier, place};
use sval_core::{Lending, Result, Stream, Value, skip_around};

/// Skips what holds these fields, where the stream asks if it is whole and each of them surely is.
fn skip_fields<'v, L: Lending, F: Fields<'v, L>, S: Stream<L>>(stream: &mut S, fields: F) -> bool
    ensures whole { result ≡ true → HoldWholeValues (F.listed fields) }
    ensures skipped { result ≡ true → TakesAnyValue S.law (S.standing stream.old) (S.standing stream.new) }
    ensures left { result ≡ false → S.standing stream.new ≡ S.standing stream.old }
{
    if !stream.asks_if_whole() || !fields.are_whole() {
        return false;
    }
    stream.skip_value()
}

/// Streams fields as a record without a name. Their names may be any texts.
///
/// # Errors
///
/// It refuses where a field refuses by itself, after its calls, or at the first call that the stream refuses.
pub fn stream_record<'v, L: Lending, F: Fields<'v, L>, S: Stream<L>>(
    stream: &mut S,
    fields: F,
) -> Result
    requires { length (F.listed fields) < 2 ^ 64 }
    ensures { Emits S.law result
        (S.standing stream.old) (record_emission (F.listed fields)) (S.standing stream.new) }
{
    if skip_fields(stream, fields) {
        return Ok(());
    }
    stream.record_begin(None, None, None, Some(fields.count()))?;
    fields.stream_fields(stream)?;
    stream.record_end(None, None, None)
}

/// Begins the record tuple of a struct.
fn begin_struct<L: Lending, N: Named, S: Stream<L>>(stream: &mut S, name: N, size: usize) -> Result
    ensures { Answers S.law result
        (S.standing stream.old) (Begin (RecordTuple (type_name (N.text name))) (Some size)) (S.standing stream.new) }
{
    stream.record_tuple_begin(None, Some(&identifier(name)), None, Some(size))
}

/// Ends the record tuple of a struct.
fn end_struct<L: Lending, N: Named, S: Stream<L>>(stream: &mut S, name: N) -> Result
    ensures { Answers S.law result
        (S.standing stream.old) (End (RecordTuple (type_name (N.text name)))) (S.standing stream.new) }
{
    stream.record_tuple_end(None, Some(&identifier(name)), None)
}

/// Streams the struct `name` as a record tuple, as sval's derive does. Each field has its name and its place. The names
/// are identifiers, which are written to JSON unchanged.
///
/// ```
/// impl<'v> Value<'v, Lent<'v>> for Work {
///     ghost emission = { λ work. a_struct "Work" (
///         field "id" (u64_emission work.id) ∷
///         field "title" (string_emission work.title) ∷ []) };
///
///     fn stream<S: Stream<Lent<'v>>>(&'v self, stream: &mut S) -> Result {
///         stream_struct(stream, "Work", fields!(self, id, title))
///     }
/// }
/// ```
///
/// # Errors
///
/// Those of [`stream_record`].
pub fn stream_struct<'v, L: Lending, N: Named, F: Fields<'v, L>, S: Stream<L>>(
    stream: &mut S,
    name: N,
    fields: F,
) -> Result
    requires { length (F.listed fields) < 2 ^ 64 }
    ensures { Emits S.law result
        (S.standing stream.old) (struct_emission (N.text name) (F.listed fields)) (S.standing stream.new) }
{
    if skip_fields(stream, fields) {
        return Ok(());
    }
    begin_struct(stream, name, fields.count())?;
    fields.stream_placed(stream, 0)?;
    end_struct(stream, name)
}

/// Begins an enum of this name.
pub(crate) fn begin_enum<L: Lending, N: Named, S: Stream<L>>(stream: &mut S, name: N) -> Result
    ensures { Answers S.law result (S.standing stream.old)
        (EnumBegin (type_name (N.text name))) (S.standing stream.new) }
{
    stream.enum_begin(None, Some(&identifier(name)), None)
}

/// Ends an enum of this name.
pub(crate) fn end_enum<L: Lending, N: Named, S: Stream<L>>(stream: &mut S, name: N) -> Result
    ensures { Answers S.law result (S.standing stream.old) (EnumEnd (type_name (N.text name))) (S.standing stream.new) }
{
    stream.enum_end(None, Some(&identifier(name)), None)
}

/// Streams the name of a variant by itself.
#[tactic(auto, unfolding(sval_core::specs::Law::emits))]
fn stream_name<L: Lending, N: Named, S: Stream<L>>(
    stream: &mut S,
    variant: N,
    number: usize,
) -> Result
    ensures { Emits S.law result
        (S.standing stream.old) (tag_emission (variant_name (N.text variant) number)) (S.standing stream.new) }
{
    stream.tag(None, Some(&identifier(variant)), Some(&place(number)))
}

/// Streams a variant that holds nothing, the one of this number from 0 on of the enum of this name.
///
/// # Errors
///
/// It refuses at the first call that the stream refuses.
pub fn stream_unit_variant<L: Lending, N: Named, M: Named, S: Stream<L>>(
    stream: &mut S,
    name: N,
    variant: M,
    number: usize,
) -> Result
    ensures { Emits S.law result
        (S.standing stream.old) (unit_variant_emission (N.text name) (M.text variant) number) (S.standing stream.new) }
{
    if stream.skip_value() {
        return Ok(());
    }
    begin_enum(stream, name)?;
    stream_name(stream, variant, number)?;
    end_enum(stream, name)
}

/// Begins a variant that holds one value.
fn begin_tagged<L: Lending, N: Named, S: Stream<L>>(
    stream: &mut S,
    variant: N,
    number: usize,
) -> Result
    ensures { Answers S.law result
        (S.standing stream.old) (TaggedBegin (variant_name (N.text variant) number)) (S.standing stream.new) }
{
    stream.tagged_begin(None, Some(&identifier(variant)), Some(&place(number)))
}

/// Ends a variant that holds one value.
fn end_tagged<L: Lending, N: Named, S: Stream<L>>(
    stream: &mut S,
    variant: N,
    number: usize,
) -> Result
    ensures { Answers S.law result
        (S.standing stream.old) (TaggedEnd (variant_name (N.text variant) number)) (S.standing stream.new) }
{
    stream.tagged_end(None, Some(&identifier(variant)), Some(&place(number)))
}

/// Streams a value under the name of a variant.
fn stream_tagged<'v, L: Lending, N: Named, T: Value<'v, L>, S: Stream<L>>(
    stream: &mut S,
    variant: N,
    number: usize,
    value: &'v T,
) -> Result
    ensures { Emits S.law result (S.standing stream.old)
        (tagged_emission (variant_name (N.text variant) number) (T.emission value.now)) (S.standing stream.new) }
{
    begin_tagged(stream, variant, number)?;
    value.stream(stream)?;
    end_tagged(stream, variant, number)
}

/// Streams a variant that holds one value, the one of this number from 0 on of the enum of this name.
///
/// # Errors
///
/// It refuses where the value refuses by itself, after its calls, or at the first call that the stream refuses.
pub fn stream_value_variant<'v, L: Lending, N: Named, M: Named, T: Value<'v, L>, S: Stream<L>>(
    stream: &mut S,
    name: N,
    variant: M,
    number: usize,
    value: &'v T,
) -> Result
    ensures { Emits S.law result (S.standing stream.old)
        (value_variant_emission (N.text name) (M.text variant) number (T.emission value.now)) (S.standing stream.new) }
{
    if skip_around(stream, value) {
        return Ok(());
    }
    begin_enum(stream, name)?;
    stream_tagged(stream, variant, number, value)?;
    end_enum(stream, name)
}

/// Begins a variant that holds fields.
fn begin_variant<L: Lending, N: Named, S: Stream<L>>(
    stream: &mut S,
    variant: N,
    number: usize,
    size: usize,
) -> Result
    ensures { Answers S.law result (S.standing stream.old)
        (Begin (RecordTuple (variant_name (N.text variant) number)) (Some size)) (S.standing stream.new) }
{
    stream.record_tuple_begin(
        None,
        Some(&identifier(variant)),
        Some(&place(number)),
        Some(size),
    )
}

/// Ends a variant that holds fields.
fn end_variant<L: Lending, N: Named, S: Stream<L>>(
    stream: &mut S,
    variant: N,
    number: usize,
) -> Result
    ensures { Answers S.law result (S.standing stream.old)
        (End (RecordTuple (variant_name (N.text variant) number))) (S.standing stream.new) }
{
    stream.record_tuple_end(None, Some(&identifier(variant)), Some(&place(number)))
}

/// Streams fields under the name of a variant.
fn stream_variant_fields<'v, L: Lending, N: Named, F: Fields<'v, L>, S: Stream<L>>(
    stream: &mut S,
    variant: N,
    number: usize,
    fields: F,
) -> Result
    requires { length (F.listed fields) < 2 ^ 64 }
    ensures { Emits S.law result (S.standing stream.old)
        (container_emission (RecordTuple (variant_name (N.text variant) number))
        (length (F.listed fields)) (placed_emission 0 (F.listed fields)))
        (S.standing stream.new) }
{
    begin_variant(stream, variant, number, fields.count())?;
    fields.stream_placed(stream, 0)?;
    end_variant(stream, variant, number)
}

/// Streams a variant that holds fields, the one of this number from 0 on of the enum of this name.
///
/// # Errors
///
/// Those of [`stream_record`].
pub fn stream_struct_variant<'v, L: Lending, N: Named, M: Named, F: Fields<'v, L>, S: Stream<L>>(
    stream: &mut S,
    name: N,
    variant: M,
    number: usize,
    fields: F,
) -> Result
    requires { length (F.listed fields) < 2 ^ 64 }
    ensures { Emits S.law result (S.standing stream.old)
        (struct_variant_emission (N.text name) (M.text variant) number (F.listed fields)) (S.standing stream.new) }
{
    if skip_fields(stream, fields) {
        return Ok(());
    }
    begin_enum(stream, name)?;
    stream_variant_fields(stream, variant, number, fields)?;
    end_enum(stream, name)
}
