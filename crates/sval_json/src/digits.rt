//! Numbers in digits.

ghost use Rattle.std.specs.Prelude.{◌≡◌};
ghost use Rattle.std.specs.Fmt.{signed_decimal};
ghost use Rattle.sval_label.specs.Grouped.{int_number};

use itoa::Buffer;
use sval_core::Int;

/// The digits of a whole number of any type, as [`Int::format`] gives them.
pub fn format_int(buffer: &mut Buffer, number: Int) -> &str
    ensures { result.now ≡ signed_decimal (int_number number) }
{
    number.format(buffer)
}
