//! Calls, read from the front of bytes.

ghost use Rattle.std.specs.Prelude.{◌≡◌, option_map};
ghost use Rattle.sval_label.specs.Calls as call;
ghost use Rattle.sval_tape.specs.ReadCalls.{tape_alone_call, tape_opening_call, tape_named_call, tape_head_of, tape_part_call, tape_int_type, call_read};
ghost use Rattle.sval_tape.specs.Reading as tape;

use crate::ints::{IntType, read_int};
use crate::read_call::{Alone, CallRead, Container, Named, Opening, Side};
use crate::reading::{
    read_block, read_field, read_field_place, read_name, read_place, read_size, read_tag,
    read_text, read_truth,
};

/// A call without operands.
#[inline(always)]
pub(crate) fn alone(word: Alone, bytes: &[u8]) -> Option<(CallRead<'_>, &[u8])>
    ensures { option_map (λ x. (call_read x.0, x.1.now)) result ≡ tape.alone (tape_alone_call word) bytes.now }
{
    Some((CallRead::Alone(word), bytes))
}

/// A truth value.
#[inline(always)]
pub(crate) fn truth(bytes: &[u8]) -> Option<(CallRead<'_>, &[u8])>
    ensures { option_map (λ x. (call_read x.0, x.1.now)) result ≡ tape.seen_at call.Truth tape.truth_at bytes.now }
{
    let (value, rest) = read_truth(bytes)?;
    Some((CallRead::Bool(value), rest))
}

/// A whole number.
#[inline(always)]
pub(crate) fn int(kind: IntType, bytes: &[u8]) -> Option<(CallRead<'_>, &[u8])>
    ensures { option_map (λ x. (call_read x.0, x.1.now)) result ≡ tape.int_form (tape_int_type kind) bytes.now }
{
    let (number, rest) = read_int(kind, bytes)?;
    Some((CallRead::Int(number), rest))
}

/// A begin with a size.
#[inline(always)]
pub(crate) fn opening(word: Opening, bytes: &[u8]) -> Option<(CallRead<'_>, &[u8])>
    ensures { option_map (λ x. (call_read x.0, x.1.now)) result
        ≡ tape.seen_at (tape_opening_call word) tape.size_at bytes.now }
{
    let (size, rest) = read_size(bytes)?;
    Some((CallRead::Opening(word, size), rest))
}

/// A text's fragment.
#[inline(always)]
pub(crate) fn text(borrowed: bool, bytes: &[u8]) -> Option<(CallRead<'_>, &[u8])>
    ensures { option_map (λ x. (call_read x.0, x.1.now)) result
        ≡ tape.seen_at (call.TextFragment borrowed) tape.text_at bytes.now }
{
    let (text, rest) = read_text(bytes)?;
    Some((CallRead::Text(borrowed, text), rest))
}

/// A binary's fragment.
#[inline(always)]
pub(crate) fn binary(borrowed: bool, bytes: &[u8]) -> Option<(CallRead<'_>, &[u8])>
    ensures { option_map (λ x. (call_read x.0, x.1.now)) result
        ≡ tape.seen_at (call.BinaryFragment borrowed) tape.block_at bytes.now }
{
    let (block, rest) = read_block(bytes)?;
    Some((CallRead::Binary(borrowed, block), rest))
}

/// A hint.
#[inline(always)]
pub(crate) fn hint(bytes: &[u8]) -> Option<(CallRead<'_>, &[u8])>
    ensures { option_map (λ x. (call_read x.0, x.1.now)) result ≡ tape.seen_at call.TagHint tape.tag_at bytes.now }
{
    let (tag, rest) = read_tag(bytes)?;
    Some((CallRead::TagHint(tag), rest))
}

/// A call with a name.
#[inline(always)]
pub(crate) fn named(word: Named, bytes: &[u8]) -> Option<(CallRead<'_>, &[u8])>
    ensures { option_map (λ x. (call_read x.0, x.1.now)) result
        ≡ tape.seen_at (tape_named_call word) tape.name_at_front bytes.now }
{
    let (name, rest) = read_name(bytes)?;
    Some((CallRead::Named(word, name), rest))
}

/// The begin of a container with a name and a size.
#[tactic(auto, unfolding(crate::specs::Reading::name_and_size_at))]
#[inline(always)]
pub(crate) fn begin(word: Container, bytes: &[u8]) -> Option<(CallRead<'_>, &[u8])>
    ensures { option_map (λ x. (call_read x.0, x.1.now)) result ≡ tape.begin_form (tape_head_of word) bytes.now }
{
    let (name, rest) = read_name(bytes)?;
    let (size, behind) = read_size(rest)?;
    Some((CallRead::Begin(word, name, size), behind))
}

/// A part with a tag and a label.
#[inline(always)]
pub(crate) fn field(side: Side, bytes: &[u8]) -> Option<(CallRead<'_>, &[u8])>
    ensures { option_map (λ x. (call_read x.0, x.1.now)) result ≡ tape.field_form (tape_part_call side) bytes.now }
{
    let ((tag, label), rest) = read_field(bytes)?;
    Some((CallRead::Field(side, tag, label), rest))
}

/// A part with a tag and an index.
#[inline(always)]
pub(crate) fn place(side: Side, bytes: &[u8]) -> Option<(CallRead<'_>, &[u8])>
    ensures { option_map (λ x. (call_read x.0, x.1.now)) result ≡ tape.place_form (tape_part_call side) bytes.now }
{
    let ((tag, index), rest) = read_place(bytes)?;
    Some((CallRead::Place(side, tag, index), rest))
}

/// A part with a tag, a label and an index.
#[inline(always)]
pub(crate) fn field_place(side: Side, bytes: &[u8]) -> Option<(CallRead<'_>, &[u8])>
    ensures { option_map (λ x. (call_read x.0, x.1.now)) result
        ≡ tape.field_place_form (tape_part_call side) bytes.now }
{
    let ((tag, label, index), rest) = read_field_place(bytes)?;
    Some((CallRead::FieldPlace(side, tag, label, index), rest))
}

/// The call of this number, whose operands follow. The arms are in the order of the numbers.
#[tactic(auto, unfolding(crate::specs::Reading::operands_at, crate::specs::Reading::tape_forms))]
fn read_operands(number: u8, bytes: &[u8]) -> Option<(CallRead<'_>, &[u8])>
    ensures { option_map (λ x. (call_read x.0, x.1.now)) result ≡ tape.operands_at number bytes.now }
{
    match number {
        0 => alone(Alone::Null, bytes),
        1 => truth(bytes),
        2 => int(IntType::U8, bytes),
        3 => int(IntType::U16, bytes),
        4 => int(IntType::U32, bytes),
        5 => int(IntType::U64, bytes),
        6 => int(IntType::U128, bytes),
        7 => int(IntType::I8, bytes),
        8 => int(IntType::I16, bytes),
        9 => int(IntType::I32, bytes),
        10 => int(IntType::I64, bytes),
        11 => int(IntType::I128, bytes),
        12 => opening(Opening::Text, bytes),
        13 => text(true, bytes),
        14 => text(false, bytes),
        15 => alone(Alone::TextEnd, bytes),
        16 => opening(Opening::Binary, bytes),
        17 => binary(true, bytes),
        18 => binary(false, bytes),
        19 => alone(Alone::BinaryEnd, bytes),
        20 => named(Named::Tag, bytes),
        21 => hint(bytes),
        22 => named(Named::EnumBegin, bytes),
        23 => named(Named::EnumEnd, bytes),
        24 => named(Named::TaggedBegin, bytes),
        25 => named(Named::TaggedEnd, bytes),
        26 => opening(Opening::Seq, bytes),
        27 => opening(Opening::Map, bytes),
        28 => begin(Container::Record, bytes),
        29 => begin(Container::Tuple, bytes),
        30 => begin(Container::RecordTuple, bytes),
        31 => alone(Alone::SeqEnd, bytes),
        32 => alone(Alone::MapEnd, bytes),
        33 => named(Named::RecordEnd, bytes),
        34 => named(Named::TupleEnd, bytes),
        35 => named(Named::RecordTupleEnd, bytes),
        36 => alone(Alone::ItemBegin, bytes),
        37 => alone(Alone::KeyBegin, bytes),
        38 => alone(Alone::ValueBegin, bytes),
        39 => field(Side::Begin, bytes),
        40 => place(Side::Begin, bytes),
        41 => field_place(Side::Begin, bytes),
        42 => alone(Alone::ItemEnd, bytes),
        43 => alone(Alone::KeyEnd, bytes),
        44 => alone(Alone::ValueEnd, bytes),
        45 => field(Side::End, bytes),
        46 => place(Side::End, bytes),
        47 => field_place(Side::End, bytes),
        48..=255 => None,
    }
}

/// The call at the front of bytes, and the bytes behind it.
pub(crate) fn read_call(bytes: &[u8]) -> Option<(CallRead<'_>, &[u8])>
    ensures { option_map (λ x. (call_read x.0, x.1.now)) result ≡ tape.call_at_front bytes.now }
{
    let [number, rest @ ..] = bytes else {
        return None;
    };
    read_operands(*number, rest)
}
