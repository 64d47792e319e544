//! Whole numbers, read from the front of bytes.

ghost use Rattle.std.specs.Prelude.{◌≡◌, pos, option_map};
ghost use Rattle.sval_label.specs.Grouped.{int_call};
ghost use Rattle.sval_label.specs.SeenIndex.{in_unsigned, in_signed};
ghost use Rattle.sval_tape.specs.ReadCalls.{tape_int_type, int_value};
ghost use Rattle.sval_tape.specs.Reading as tape;

use crate::reading::read_number;
use sval_core::Int;

/// The types of whole numbers.
#[derive(Clone, Copy)]
pub(crate) enum IntType {
    U8,
    U16,
    U32,
    U64,
    U128,
    I8,
    I16,
    I32,
    I64,
    I128,
}

/// The number, where it is in the range of a `u8`.
#[inline(always)]
fn in_u8(number: u128) -> Option<u8>
    ensures { result ≡ in_unsigned 8 (pos number) }
{
    u8::try_from(number).ok()
}

/// The number, where it is in the range of a `u16`.
#[inline(always)]
fn in_u16(number: u128) -> Option<u16>
    ensures { result ≡ in_unsigned 16 (pos number) }
{
    u16::try_from(number).ok()
}

/// The number, where it is in the range of a `u32`.
#[inline(always)]
fn in_u32(number: u128) -> Option<u32>
    ensures { result ≡ in_unsigned 32 (pos number) }
{
    u32::try_from(number).ok()
}

/// The number, where it is in the range of a `u64`.
#[inline(always)]
fn in_u64(number: u128) -> Option<u64>
    ensures { result ≡ in_unsigned 64 (pos number) }
{
    u64::try_from(number).ok()
}

/// The number, where it is in the range of an `i8`.
#[inline(always)]
fn in_i8(number: i128) -> Option<i8>
    ensures { result ≡ in_signed 7 number }
{
    i8::try_from(number).ok()
}

/// The number, where it is in the range of an `i16`.
#[inline(always)]
fn in_i16(number: i128) -> Option<i16>
    ensures { result ≡ in_signed 15 number }
{
    i16::try_from(number).ok()
}

/// The number, where it is in the range of an `i32`.
#[inline(always)]
fn in_i32(number: i128) -> Option<i32>
    ensures { result ≡ in_signed 31 number }
{
    i32::try_from(number).ok()
}

/// The number, where it is in the range of an `i64`.
#[inline(always)]
fn in_i64(number: i128) -> Option<i64>
    ensures { result ≡ in_signed 63 number }
{
    i64::try_from(number).ok()
}

/// The number with a sign that a number without one stands for.
#[inline(always)]
pub(crate) fn unzigzag(number: u128) -> i128
    ensures { result ≡ tape.unzigzag number }
{
    let half = (number / 2) as i128;
    if number % 2 == 0 {
        return half;
    }
    -1 - half
}

/// The whole number of this type, where the number is in its range.
#[inline(always)]
fn int_of(kind: IntType, number: u128) -> Option<Int>
    ensures { option_map int_call result ≡ int_value (tape_int_type kind) number }
{
    match kind {
        IntType::U8 => match in_u8(number) {
            Some(number) => Some(Int::U8(number)),
            None => None,
        },
        IntType::U16 => match in_u16(number) {
            Some(number) => Some(Int::U16(number)),
            None => None,
        },
        IntType::U32 => match in_u32(number) {
            Some(number) => Some(Int::U32(number)),
            None => None,
        },
        IntType::U64 => match in_u64(number) {
            Some(number) => Some(Int::U64(number)),
            None => None,
        },
        IntType::U128 => Some(Int::U128(number)),
        IntType::I8 => match in_i8(unzigzag(number)) {
            Some(number) => Some(Int::I8(number)),
            None => None,
        },
        IntType::I16 => match in_i16(unzigzag(number)) {
            Some(number) => Some(Int::I16(number)),
            None => None,
        },
        IntType::I32 => match in_i32(unzigzag(number)) {
            Some(number) => Some(Int::I32(number)),
            None => None,
        },
        IntType::I64 => match in_i64(unzigzag(number)) {
            Some(number) => Some(Int::I64(number)),
            None => None,
        },
        IntType::I128 => Some(Int::I128(unzigzag(number))),
    }
}

/// A whole number of this type.
#[tactic(auto, unfolding(crate::specs::Reading::int_at))]
#[inline(always)]
pub(crate) fn read_int(kind: IntType, bytes: &[u8]) -> Option<(Int, &[u8])>
    ensures { option_map (λ x. (int_call x.0, x.1.now)) result ≡ tape.int_form (tape_int_type kind) bytes.now }
{
    let (number, rest) = read_number(bytes)?;
    match int_of(kind, number) {
        Some(number) => Some((number, rest)),
        None => None,
    }
}
