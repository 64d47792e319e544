//! Whole numbers, as CBOR has them.

ghost use Rattle.std.specs.Prelude.{◌≡◌, true};
ghost use Rattle.sval_label.specs.Grouped.{int_number};
ghost use Rattle.sval_cbor.specs.Packs.{has_128_bits};
ghost use Rattle.sval_cbor.specs.SeenWriter.{seen_integer};

use sval_core::Int;

/// A whole number of up to 128 bits (RFC 8949, section 3.1).
#[derive(Clone, Copy)]
pub(crate) enum Integer {
    /// This number.
    Unsigned(u128),
    /// -1 less this number.
    Negative(u128),
}

impl Integer {
    /// The number that a call tells.
    pub(crate) fn of(number: Int) -> Self
        ensures same { seen_integer result ≡ int_number number }
        ensures fits { has_128_bits (int_number number) ≡ true }
    {
        match number {
            Int::U8(number) => Integer::Unsigned(u128::from(number)),
            Int::U16(number) => Integer::Unsigned(u128::from(number)),
            Int::U32(number) => Integer::Unsigned(u128::from(number)),
            Int::U64(number) => Integer::Unsigned(u128::from(number)),
            Int::U128(number) => Integer::Unsigned(number),
            Int::I8(number) => Integer::of_signed(i128::from(number)),
            Int::I16(number) => Integer::of_signed(i128::from(number)),
            Int::I32(number) => Integer::of_signed(i128::from(number)),
            Int::I64(number) => Integer::of_signed(i128::from(number)),
            Int::I128(number) => Integer::of_signed(number),
        }
    }

    /// This number.
    pub(crate) fn of_signed(number: i128) -> Self
        ensures { seen_integer result ≡ number }
    {
        if number < 0 {
            return Integer::Negative((-1 - number) as u128);
        }
        Integer::Unsigned(number as u128)
    }
}
