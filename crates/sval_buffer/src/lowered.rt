//! What numbers and tags are lowered to, for a buffer that collects.

ghost use Rattle.std.specs.Prelude.{◌≡◌, Some, None, option_map, if◌then◌else◌};
ghost use Rattle.std.specs.Fmt.{signed_decimal};
ghost use Rattle.sval_label.specs.Grouped.{int_number, int_type};
ghost use Rattle.sval_label.specs.SeenName.{seen_name};
ghost use Rattle.sval_buffer.specs.CollectSteps.{is_digits, own_label};

use itoa::Buffer;
use sval_core::tags::RUST_OPTION_NONE;
use sval_core::{Int, Label, Name};

/// A number that `i64` doesn't hold is lowered to its digits.
pub(crate) fn is_wide(number: Int) -> bool
    ensures { result ≡ is_digits (int_type number) (int_number number) }
{
    match number {
        Int::U64(number) => i64::try_from(number).is_err(),
        Int::U128(number) => i64::try_from(number).is_err(),
        Int::I128(number) => i64::try_from(number).is_err(),
        _ => false,
    }
}

/// The decimal digits of a number that is lowered to them, with `-` in front where it is below 0. They are in `buffer`.
pub(crate) fn wide_digits(buffer: &mut Buffer, number: Int) -> Option<&str>
    ensures { let wide = is_digits (int_type number) (int_number number) in
        option_map (λ text. text.now) result ≡ (if wide then Some (signed_decimal (int_number number)) else None) }
{
    if !is_wide(number) {
        return None;
    }
    match number {
        Int::U64(number) => Some(buffer.format(number)),
        Int::U128(number) => Some(buffer.format(number)),
        Int::I128(number) => Some(buffer.format(number)),
        _ => None,
    }
}

/// The label of a tag by itself, where the tag isn't told as null.
pub(crate) fn label_of<'c>(name: Name<'c>) -> Option<&'c Label<'c>>
    ensures { option_map (λ label. label.now) result ≡ own_label (seen_name name.entry) }
{
    match name.tag {
        Some(&RUST_OPTION_NONE) => None,
        _ => name.label,
    }
}
