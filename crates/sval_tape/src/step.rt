//! Calls that are made as they are read.

ghost use Rattle.std.specs.Prelude.{◌≡◌, option_map};
ghost use Rattle.sval_label.specs.Calls as call;
ghost use Rattle.sval_tape.specs.ReadCalls.{call_read, tape_alone_call, tape_head_of, tape_int_type, tape_named_call, tape_opening_call, tape_part_call};
ghost use Rattle.sval_tape.specs.Reading as tape;
ghost use Rattle.sval_tape.specs.Streaming.{StepsOn};

use crate::calls::{alone, begin, binary, hint, int, opening, place, text, truth};
use crate::ints::IntType;
use crate::read_call;
use crate::read_call::{Alone, CallRead, Container, Named, Opening, Side};
use crate::reading::{read_field, read_field_place, read_name};
use sval_core::{Error, Lent, Stream};

/// What became of the call at the front of bytes.
pub(crate) enum Step<'sval> {
    /// The stream took it, and these bytes are behind it.
    Taken(&'sval [u8]),
    /// The stream refused it.
    Refused(Error),
    /// No call begins there.
    Bad,
}

/// Makes a call that was read.
#[inline(always)]
fn make<'v, S: Stream<Lent<'v>>>(read: Option<(CallRead<'v>, &'v [u8])>, stream: &mut S) -> Step<'v>
    ensures { StepsOn S.law (option_map (λ x. (call_read x.0, x.1.now)) read.entry)
        (S.standing stream.old) result (S.standing stream.new) }
{
    match read {
        Some((call, rest)) => match call.make(stream) {
            Ok(()) => Step::Taken(rest),
            Err(refusal) => Step::Refused(refusal),
        },
        None => Step::Bad,
    }
}

/// Makes a call without operands.
#[inline(never)]
fn make_alone<'v, S: Stream<Lent<'v>>>(word: Alone, bytes: &'v [u8], stream: &mut S) -> Step<'v>
    ensures { StepsOn S.law (tape.alone (tape_alone_call word) bytes.now)
        (S.standing stream.old) result (S.standing stream.new) }
{
    make(alone(word, bytes), stream)
}

/// Makes the call of a truth value.
#[inline(never)]
fn make_truth<'v, S: Stream<Lent<'v>>>(bytes: &'v [u8], stream: &mut S) -> Step<'v>
    ensures { StepsOn S.law (tape.seen_at call.Truth tape.truth_at bytes.now)
        (S.standing stream.old) result (S.standing stream.new) }
{
    make(truth(bytes), stream)
}

/// Makes the call of a whole number.
#[inline(never)]
fn make_int<'v, S: Stream<Lent<'v>>>(kind: IntType, bytes: &'v [u8], stream: &mut S) -> Step<'v>
    ensures { StepsOn S.law (tape.int_form (tape_int_type kind) bytes.now)
        (S.standing stream.old) result (S.standing stream.new) }
{
    make(int(kind, bytes), stream)
}

/// Makes a begin with a size.
#[inline(never)]
fn make_opening<'v, S: Stream<Lent<'v>>>(word: Opening, bytes: &'v [u8], stream: &mut S) -> Step<'v>
    ensures { StepsOn S.law (tape.seen_at (tape_opening_call word) tape.size_at bytes.now)
        (S.standing stream.old) result (S.standing stream.new) }
{
    make(opening(word, bytes), stream)
}

/// Makes the call of a text's fragment.
#[inline(never)]
fn make_text<'v, S: Stream<Lent<'v>>>(borrowed: bool, bytes: &'v [u8], stream: &mut S) -> Step<'v>
    ensures { StepsOn S.law (tape.seen_at (call.TextFragment borrowed) tape.text_at bytes.now)
        (S.standing stream.old) result (S.standing stream.new) }
{
    make(text(borrowed, bytes), stream)
}

/// Makes the call of a binary's fragment.
#[inline(never)]
fn make_binary<'v, S: Stream<Lent<'v>>>(borrowed: bool, bytes: &'v [u8], stream: &mut S) -> Step<'v>
    ensures { StepsOn S.law (tape.seen_at (call.BinaryFragment borrowed) tape.block_at bytes.now)
        (S.standing stream.old) result (S.standing stream.new) }
{
    make(binary(borrowed, bytes), stream)
}

/// Makes a hint.
#[inline(never)]
fn make_hint<'v, S: Stream<Lent<'v>>>(bytes: &'v [u8], stream: &mut S) -> Step<'v>
    ensures { StepsOn S.law (tape.seen_at call.TagHint tape.tag_at bytes.now)
        (S.standing stream.old) result (S.standing stream.new) }
{
    make(hint(bytes), stream)
}

/// Makes a call with a name.
#[inline(never)]
fn make_named<'v, S: Stream<Lent<'v>>>(word: Named, bytes: &'v [u8], stream: &mut S) -> Step<'v>
    ensures { StepsOn S.law (tape.seen_at (tape_named_call word) tape.name_at_front bytes.now)
        (S.standing stream.old) result (S.standing stream.new) }
{
    match read_name(bytes) {
        Some((name, rest)) => match read_call::make_named(word, name, stream) {
            Ok(()) => Step::Taken(rest),
            Err(refusal) => Step::Refused(refusal),
        },
        None => Step::Bad,
    }
}

/// Makes the begin of a container with a name and a size.
#[inline(never)]
fn make_begin<'v, S: Stream<Lent<'v>>>(word: Container, bytes: &'v [u8], stream: &mut S) -> Step<'v>
    ensures { StepsOn S.law (tape.begin_form (tape_head_of word) bytes.now)
        (S.standing stream.old) result (S.standing stream.new) }
{
    make(begin(word, bytes), stream)
}

/// Makes the begin or the end of a part with a tag and a label.
#[inline(never)]
fn make_field<'v, S: Stream<Lent<'v>>>(side: Side, bytes: &'v [u8], stream: &mut S) -> Step<'v>
    ensures { StepsOn S.law (tape.field_form (tape_part_call side) bytes.now)
        (S.standing stream.old) result (S.standing stream.new) }
{
    match read_field(bytes) {
        Some(((tag, label), rest)) => match read_call::make_field(side, tag, label, stream) {
            Ok(()) => Step::Taken(rest),
            Err(refusal) => Step::Refused(refusal),
        },
        None => Step::Bad,
    }
}

/// Makes the begin or the end of a part with a tag and an index.
#[inline(never)]
fn make_place<'v, S: Stream<Lent<'v>>>(side: Side, bytes: &'v [u8], stream: &mut S) -> Step<'v>
    ensures { StepsOn S.law (tape.place_form (tape_part_call side) bytes.now)
        (S.standing stream.old) result (S.standing stream.new) }
{
    make(place(side, bytes), stream)
}

/// Makes the begin or the end of a part with a tag, a label and an index.
#[inline(never)]
fn make_field_place<'v, S: Stream<Lent<'v>>>(
    side: Side,
    bytes: &'v [u8],
    stream: &mut S,
) -> Step<'v>
    ensures { StepsOn S.law (tape.field_place_form (tape_part_call side) bytes.now)
        (S.standing stream.old) result (S.standing stream.new) }
{
    match read_field_place(bytes) {
        Some(((tag, label, index), rest)) => match read_call::make_field_place(
            side, tag, label, index, stream,
        ) {
            Ok(()) => Step::Taken(rest),
            Err(refusal) => Step::Refused(refusal),
        },
        None => Step::Bad,
    }
}

/// Makes the call of this number, whose operands follow. The arms are in the order of the numbers.
///
/// Each kind of call is read and made in a function of its own, so that no call goes through memory and none of these
/// functions is large.
#[tactic(auto, using(crate::proofs::Forms::no_form), unfolding(crate::specs::Reading::operands_at, crate::specs::Reading::tape_forms))]
#[inline(always)]
fn make_numbered<'v, S: Stream<Lent<'v>>>(number: u8, bytes: &'v [u8], stream: &mut S) -> Step<'v>
    ensures { StepsOn S.law (tape.operands_at number bytes.now)
        (S.standing stream.old) result (S.standing stream.new) }
{
    match number {
        0 => make_alone(Alone::Null, bytes, stream),
        1 => make_truth(bytes, stream),
        2 => make_int(IntType::U8, bytes, stream),
        3 => make_int(IntType::U16, bytes, stream),
        4 => make_int(IntType::U32, bytes, stream),
        5 => make_int(IntType::U64, bytes, stream),
        6 => make_int(IntType::U128, bytes, stream),
        7 => make_int(IntType::I8, bytes, stream),
        8 => make_int(IntType::I16, bytes, stream),
        9 => make_int(IntType::I32, bytes, stream),
        10 => make_int(IntType::I64, bytes, stream),
        11 => make_int(IntType::I128, bytes, stream),
        12 => make_opening(Opening::Text, bytes, stream),
        13 => make_text(true, bytes, stream),
        14 => make_text(false, bytes, stream),
        15 => make_alone(Alone::TextEnd, bytes, stream),
        16 => make_opening(Opening::Binary, bytes, stream),
        17 => make_binary(true, bytes, stream),
        18 => make_binary(false, bytes, stream),
        19 => make_alone(Alone::BinaryEnd, bytes, stream),
        20 => make_named(Named::Tag, bytes, stream),
        21 => make_hint(bytes, stream),
        22 => make_named(Named::EnumBegin, bytes, stream),
        23 => make_named(Named::EnumEnd, bytes, stream),
        24 => make_named(Named::TaggedBegin, bytes, stream),
        25 => make_named(Named::TaggedEnd, bytes, stream),
        26 => make_opening(Opening::Seq, bytes, stream),
        27 => make_opening(Opening::Map, bytes, stream),
        28 => make_begin(Container::Record, bytes, stream),
        29 => make_begin(Container::Tuple, bytes, stream),
        30 => make_begin(Container::RecordTuple, bytes, stream),
        31 => make_alone(Alone::SeqEnd, bytes, stream),
        32 => make_alone(Alone::MapEnd, bytes, stream),
        33 => make_named(Named::RecordEnd, bytes, stream),
        34 => make_named(Named::TupleEnd, bytes, stream),
        35 => make_named(Named::RecordTupleEnd, bytes, stream),
        36 => make_alone(Alone::ItemBegin, bytes, stream),
        37 => make_alone(Alone::KeyBegin, bytes, stream),
        38 => make_alone(Alone::ValueBegin, bytes, stream),
        39 => make_field(Side::Begin, bytes, stream),
        40 => make_place(Side::Begin, bytes, stream),
        41 => make_field_place(Side::Begin, bytes, stream),
        42 => make_alone(Alone::ItemEnd, bytes, stream),
        43 => make_alone(Alone::KeyEnd, bytes, stream),
        44 => make_alone(Alone::ValueEnd, bytes, stream),
        45 => make_field(Side::End, bytes, stream),
        46 => make_place(Side::End, bytes, stream),
        47 => make_field_place(Side::End, bytes, stream),
        48..=255 => Step::Bad,
    }
}

/// Makes the call at the front of bytes.
#[inline(always)]
pub(crate) fn make_first<'v, S: Stream<Lent<'v>>>(bytes: &'v [u8], stream: &mut S) -> Step<'v>
    ensures { StepsOn S.law (tape.call_at_front bytes.now)
        (S.standing stream.old) result (S.standing stream.new) }
{
    let [number, rest @ ..] = bytes else {
        return Step::Bad;
    };
    make_numbered(*number, rest, stream)
}
