//! A whole number of 128 bits, as it is kept.

ghost use Rattle.std.specs.Prelude.{◌≡◌};
ghost use Rattle.sval_buffer.specs.SeenInts.{wide_number, wide_int};

use sval_core::Int;

/// A number of 128 bits in two halves, so that it is aligned as one of 64 bits is.
#[derive(Clone, Copy)]
pub(crate) struct Wide {
    upper: u64,
    lower: u64,
}

impl Wide {
    /// The halves of a number.
    pub(crate) fn new(number: u128) -> Wide
        ensures { wide_number result ≡ number }
    {
        Wide {
            upper: (number / (1 << 64)) as u64,
            lower: (number % (1 << 64)) as u64,
        }
    }

    /// The number.
    fn get(self) -> u128
        ensures { result ≡ wide_number self }
    {
        u128::from(self.upper) * (1 << 64) + u128::from(self.lower)
    }

    /// The number without a sign, or the one with a sign that has the same bits.
    pub(crate) fn int(self, signed: bool) -> Int
        ensures { result ≡ wide_int signed self }
    {
        if signed {
            Int::I128(self.get().cast_signed())
        } else {
            Int::U128(self.get())
        }
    }
}
