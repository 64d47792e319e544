//! What a value says, read from its calls: a truth value, a number, a text, a binary or a tag.
//!
//! Each reader streams the value into a stream of its own, which refuses the first call that its answer doesn't allow.
//! `specs/Readers.antt` has each answer, as a function of the value's calls and of whether it refuses. In these pages a
//! call is passed over if it begins or ends a tagged value or an enum, hints at a tag, or is an empty fragment of a
//! binary. No reader takes memory.
//!
//! [`Readers`](crate::Readers) has these functions as methods of each value.

ghost use Rattle.std.specs.Prelude.{◌≡◌, option_map, pos};
ghost use Rattle.sval_lower.specs.Readers as read;

use crate::reading::{FirstTag, GivenTag, OfBinary, OfSigned, OfText, OfTruth, OfUnsigned, item};
use sval_core::{Lent, Value};

/// The tag of a value: that which its first call gives, after hints, ends of tagged values and enums, and empty
/// fragments of binaries.
///
/// What begins an enum, a tagged value, a record, a tuple or a record tuple gives its tag, as a tag by itself does, and
/// a whole number gives `NUMBER`. Any other call gives none. Whether the value refuses doesn't matter.
pub fn tag<'v, T: GivenTag, V: Value<'v, Lent<'v>>>(value: &'v V) -> Option<T>
    ensures { option_map T.text result ≡ read.first_tag (V.emission value.now) }
{
    let mut first: FirstTag<T> = FirstTag { held: None };
    match value.stream(&mut first) {
        Ok(()) => first.held,
        Err(_) => first.held,
    }
}

/// The last truth value, where the value doesn't refuse and each call is a truth value or passed over.
pub fn to_bool<'v, V: Value<'v, Lent<'v>>>(value: &'v V) -> Option<bool>
    ensures { result ≡ read.to_bool (V.emission value.now) }
{
    item::<Lent, bool, OfTruth, V>(value)
}

/// The last `i8`, where the value doesn't refuse and each call is an `i8` or passed over; and else what [`to_i128`]
/// gives, where that is in range. Any type but this one and `i128` gives none, with a sign or without.
pub fn to_i8<'v, V: Value<'v, Lent<'v>>>(value: &'v V) -> Option<i8>
    ensures { result ≡ read.to_i8 (V.emission value.now) }
{
    match item::<Lent, i8, OfSigned, V>(value) {
        Some(number) => Some(number),
        None => i8::try_from(to_i128(value)?).ok(),
    }
}

/// The last `i16`, where the value doesn't refuse and each call is an `i16` or passed over; and else what [`to_i128`]
/// gives, where that is in range. Any type but this one and `i128` gives none, with a sign or without.
pub fn to_i16<'v, V: Value<'v, Lent<'v>>>(value: &'v V) -> Option<i16>
    ensures { result ≡ read.to_i16 (V.emission value.now) }
{
    match item::<Lent, i16, OfSigned, V>(value) {
        Some(number) => Some(number),
        None => i16::try_from(to_i128(value)?).ok(),
    }
}

/// The last `i32`, where the value doesn't refuse and each call is an `i32` or passed over; and else what [`to_i128`]
/// gives, where that is in range. Any type but this one and `i128` gives none, with a sign or without.
pub fn to_i32<'v, V: Value<'v, Lent<'v>>>(value: &'v V) -> Option<i32>
    ensures { result ≡ read.to_i32 (V.emission value.now) }
{
    match item::<Lent, i32, OfSigned, V>(value) {
        Some(number) => Some(number),
        None => i32::try_from(to_i128(value)?).ok(),
    }
}

/// The last `i64`, where the value doesn't refuse and each call is an `i64` or passed over; and else what [`to_i128`]
/// gives, where that is in range. Any type but this one and `i128` gives none, with a sign or without.
pub fn to_i64<'v, V: Value<'v, Lent<'v>>>(value: &'v V) -> Option<i64>
    ensures { result ≡ read.to_i64 (V.emission value.now) }
{
    match item::<Lent, i64, OfSigned, V>(value) {
        Some(number) => Some(number),
        None => i64::try_from(to_i128(value)?).ok(),
    }
}

/// The last `i128`, where the value doesn't refuse and each call is an `i128` or passed over. A number of any other
/// type gives none.
pub fn to_i128<'v, V: Value<'v, Lent<'v>>>(value: &'v V) -> Option<i128>
    ensures { result ≡ read.to_i128 (V.emission value.now) }
{
    item::<Lent, i128, OfSigned, V>(value)
}

/// What [`to_u128`] gives, where that is in the range of `u8`.
pub fn to_u8<'v, V: Value<'v, Lent<'v>>>(value: &'v V) -> Option<u8>
    ensures { option_map (λ n. pos n) result ≡ read.to_u8 (V.emission value.now) }
{
    u8::try_from(to_u128(value)?).ok()
}

/// What [`to_u128`] gives, where that is in the range of `u16`.
pub fn to_u16<'v, V: Value<'v, Lent<'v>>>(value: &'v V) -> Option<u16>
    ensures { option_map (λ n. pos n) result ≡ read.to_u16 (V.emission value.now) }
{
    u16::try_from(to_u128(value)?).ok()
}

/// What [`to_u128`] gives, where that is in the range of `u32`.
pub fn to_u32<'v, V: Value<'v, Lent<'v>>>(value: &'v V) -> Option<u32>
    ensures { option_map (λ n. pos n) result ≡ read.to_u32 (V.emission value.now) }
{
    u32::try_from(to_u128(value)?).ok()
}

/// What [`to_u128`] gives, where that is in the range of `u64`.
pub fn to_u64<'v, V: Value<'v, Lent<'v>>>(value: &'v V) -> Option<u64>
    ensures { option_map (λ n. pos n) result ≡ read.to_u64 (V.emission value.now) }
{
    u64::try_from(to_u128(value)?).ok()
}

/// The last whole number without a sign, where the value doesn't refuse and each call is one, of any type, or passed
/// over.
pub fn to_u128<'v, V: Value<'v, Lent<'v>>>(value: &'v V) -> Option<u128>
    ensures { option_map (λ n. pos n) result ≡ read.to_u128 (V.emission value.now) }
{
    item::<Lent, u128, OfUnsigned, V>(value)
}

/// The text of the one borrowed fragment, where the value doesn't refuse and each other call begins or ends a text or
/// is passed over.
///
/// A tag by itself counts as a fragment of its label's text, where the label is static and its tag isn't
/// `RUST_OPTION_NONE`. A computed fragment gives none, as several fragments do.
pub fn to_text<'v, V: Value<'v, Lent<'v>>>(value: &'v V) -> Option<&'v str>
    ensures { option_map (λ text. text.now) result ≡ read.to_text (V.emission value.now) }
{
    item::<Lent, &str, OfText, V>(value)
}

/// The bytes of the one borrowed fragment, where the value doesn't refuse and each other call begins or ends a binary,
/// a tagged value or an enum, or hints at a tag. A computed fragment gives none, as several fragments do, empty or not.
pub fn to_binary<'v, V: Value<'v, Lent<'v>>>(value: &'v V) -> Option<&'v [u8]>
    ensures { option_map (λ binary. binary.now) result ≡ read.to_binary (V.emission value.now) }
{
    item::<Lent, &[u8], OfBinary, V>(value)
}
