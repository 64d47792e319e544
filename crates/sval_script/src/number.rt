//! Whole numbers as fields.

ghost use Rattle.std.specs.Prelude.{◌≡◌, ◌^◌, pos, nat_lt, IfSome, option_map, option_and_then};
ghost use Rattle.std.specs.List.{list_all};
ghost use Rattle.std.specs.Char.{is_ascii_digit};
ghost use Rattle.sval_label.specs.Calls.{I64, I128};
ghost use Rattle.sval_label.specs.Grouped.{int_number, int_type};
ghost use Rattle.sval_label.specs.Texts as label;
ghost use Rattle.sval_script.specs.Lines as script;
ghost use Rattle.sval_script.specs.Words.{type_of};

use crate::store::text;
use crate::word::NumberType;
use sval_label::Int;

/// Whether a field is a decimal: one digit, or more that don't begin with `0`.
fn is_decimal(field: &[u8]) -> bool
    ensures { result ≡ label.is_decimal field.now }
{
    match field {
        [] => false,
        [digit] => digit.is_ascii_digit(),
        [first, digits @ ..] => matches!(first, b'1'..=b'9') && are_digits(digits),
    }
}

fn are_digits(bytes: &[u8]) -> bool
    ensures { result ≡ list_all is_ascii_digit bytes.now }
{
    bytes.iter().all(|byte| byte.is_ascii_digit())
}

/// A number of 64 bits.
#[inline(never)]
pub(crate) fn natural(field: &[u8]) -> Option<u64>
    ensures { result ≡ option_and_then (script.keep (λ n. nat_lt n (2 ^ 64))) (script.natural field.now) }
{
    if !is_decimal(field) {
        return None;
    }
    // Decimals are ASCII.
    text(field).parse().ok()
}

/// A number of 128 bits.
fn natural_128(field: &[u8]) -> Option<u128>
    ensures { result ≡ option_and_then (script.keep (λ n. nat_lt n (2 ^ 128))) (script.natural field.now) }
{
    if !is_decimal(field) {
        return None;
    }
    // Decimals are ASCII.
    text(field).parse().ok()
}

/// A whole number of 64 bits with its sign.
pub(crate) fn integer(field: &[u8]) -> Option<i64>
    ensures { result ≡ script.whole_number_of I64 field.now }
{
    match field {
        [b'-', digits @ ..] => match natural(digits)? {
            0 => None,
            size => 0i64.checked_sub_unsigned(size),
        },
        _ => i64::try_from(natural(field)?).ok(),
    }
}

/// A whole number of 128 bits with its sign.
fn integer_128(field: &[u8]) -> Option<i128>
    ensures { result ≡ script.whole_number_of I128 field.now }
{
    match field {
        [b'-', digits @ ..] => match natural_128(digits)? {
            0 => None,
            size => 0i128.checked_sub_unsigned(size),
        },
        _ => i128::try_from(natural_128(field)?).ok(),
    }
}

/// A whole number in the type's range.
pub(crate) fn number(kind: NumberType, field: &[u8]) -> Option<Int>
    ensures number { option_map int_number result ≡ script.whole_number_of (type_of kind) field.now }
    ensures of_type { IfSome result (λ number. int_type number ≡ type_of kind) }
{
    match kind {
        NumberType::U8 => Some(Int::U8(u8::try_from(natural(field)?).ok()?)),
        NumberType::U16 => Some(Int::U16(u16::try_from(natural(field)?).ok()?)),
        NumberType::U32 => Some(Int::U32(u32::try_from(natural(field)?).ok()?)),
        NumberType::U64 => Some(Int::U64(natural(field)?)),
        NumberType::U128 => Some(Int::U128(natural_128(field)?)),
        NumberType::I8 => Some(Int::I8(i8::try_from(integer(field)?).ok()?)),
        NumberType::I16 => Some(Int::I16(i16::try_from(integer(field)?).ok()?)),
        NumberType::I32 => Some(Int::I32(i32::try_from(integer(field)?).ok()?)),
        NumberType::I64 => Some(Int::I64(integer(field)?)),
        NumberType::I128 => Some(Int::I128(integer_128(field)?)),
    }
}
