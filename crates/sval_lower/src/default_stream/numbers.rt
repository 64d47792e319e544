//! Whole numbers as larger ones, and those of 128 bits as texts where they don't fit 64.

ghost use Rattle.std.specs.Prelude.{◌≡◌, pos};
ghost use Rattle.sval_label.specs.Calls as call;
ghost use Rattle.sval_label.specs.SeenIndex.{in_signed};
ghost use Rattle.sval_label.specs.SeenTags.{seen_tag};
ghost use Rattle.sval_core.specs.Law.{Answers, Emits};
ghost use Rattle.sval_core.specs.Values.{makes};
ghost use Rattle.sval_lower.specs.Lower.{lower, text_under};

use itoa::Buffer;
use sval_core::{Lending, Result, Stream, Tag, tags};

/// Streams the number as a `u16`.
pub fn u8<L: Lending, S: Stream<L>>(stream: &mut S, value: u8) -> Result
    ensures { Emits S.law result (S.standing stream.old)
        (makes (lower (call.Int call.U8 (pos value)))) (S.standing stream.new) }
{
    stream.u16(u16::from(value))
}

/// Streams the number as a `u32`.
pub fn u16<L: Lending, S: Stream<L>>(stream: &mut S, value: u16) -> Result
    ensures { Emits S.law result (S.standing stream.old)
        (makes (lower (call.Int call.U16 (pos value)))) (S.standing stream.new) }
{
    stream.u32(u32::from(value))
}

/// Streams the number as a `u64`.
pub fn u32<L: Lending, S: Stream<L>>(stream: &mut S, value: u32) -> Result
    ensures { Emits S.law result (S.standing stream.old)
        (makes (lower (call.Int call.U32 (pos value)))) (S.standing stream.new) }
{
    stream.u64(u64::from(value))
}

/// Streams the number as a `u128`.
pub fn u64<L: Lending, S: Stream<L>>(stream: &mut S, value: u64) -> Result
    ensures { Emits S.law result (S.standing stream.old)
        (makes (lower (call.Int call.U64 (pos value)))) (S.standing stream.new) }
{
    stream.u128(u128::from(value))
}

/// The number as `i64` where it fits, and else its decimal digits as a text under `NUMBER`, in one computed fragment.
pub fn u128<L: Lending, S: Stream<L>>(stream: &mut S, value: u128) -> Result
    ensures { Emits S.law result (S.standing stream.old)
        (makes (lower (call.Int call.U128 (pos value)))) (S.standing stream.new) }
{
    match u128_in_64_bits(value) {
        Some(number) => small(stream, &number),
        None => text_under(stream, &tags::NUMBER, Buffer::new().format(value)),
    }
}

/// Streams the number as an `i16`.
pub fn i8<L: Lending, S: Stream<L>>(stream: &mut S, value: i8) -> Result
    ensures { Emits S.law result (S.standing stream.old)
        (makes (lower (call.Int call.I8 value))) (S.standing stream.new) }
{
    stream.i16(i16::from(value))
}

/// Streams the number as an `i32`.
pub fn i16<L: Lending, S: Stream<L>>(stream: &mut S, value: i16) -> Result
    ensures { Emits S.law result (S.standing stream.old)
        (makes (lower (call.Int call.I16 value))) (S.standing stream.new) }
{
    stream.i32(i32::from(value))
}

/// Streams the number as an `i64`.
pub fn i32<L: Lending, S: Stream<L>>(stream: &mut S, value: i32) -> Result
    ensures { Emits S.law result (S.standing stream.old)
        (makes (lower (call.Int call.I32 value))) (S.standing stream.new) }
{
    stream.i64(i64::from(value))
}

/// A base call, which stands for itself.
pub fn i64<L: Lending, S: Stream<L>>(stream: &mut S, value: i64) -> Result
    ensures { Emits S.law result (S.standing stream.old)
        (makes (lower (call.Int call.I64 value))) (S.standing stream.new) }
{
    stream.i64(value)
}

/// The number as `i64` where it fits, and else its decimal digits as a text under `NUMBER`, in one computed fragment.
pub fn i128<L: Lending, S: Stream<L>>(stream: &mut S, value: i128) -> Result
    ensures { Emits S.law result (S.standing stream.old)
        (makes (lower (call.Int call.I128 value))) (S.standing stream.new) }
{
    match i128_in_64_bits(&value) {
        Some(number) => small(stream, &number),
        None => text_under(stream, &tags::NUMBER, Buffer::new().format(value)),
    }
}

/// A number that fits 64 bits with their sign.
fn u128_in_64_bits(value: u128) -> Option<i64>
    ensures { result ≡ in_signed 63 (pos value) }
{
    i64::try_from(value).ok()
}

/// A number that fits 64 bits with their sign.
fn i128_in_64_bits(value: &i128) -> Option<i64>
    ensures { result ≡ in_signed 63 value.now }
{
    i64::try_from(*value).ok()
}

/// A number of 64 bits with their sign.
fn small<L: Lending, S: Stream<L>>(stream: &mut S, number: &i64) -> Result
    ensures { Answers S.law result (S.standing stream.old)
        (call.Int call.I64 number.now) (S.standing stream.new) }
{
    stream.i64(*number)
}

/// A text of unknown size under a tag.
fn text_under<L: Lending, S: Stream<L>>(stream: &mut S, tag: &Tag, text: &str) -> Result
    ensures { Emits S.law result (S.standing stream.old)
        (makes (text_under (seen_tag tag.now) text.now)) (S.standing stream.new) }
{
    stream.tagged_begin(Some(tag), None, None)?;
    stream.text_begin(None)?;
    stream.text_fragment_computed(text)?;
    stream.text_end()?;
    stream.tagged_end(Some(tag), None, None)
}
