//! Places in a text, and numbers of nodes, in six bytes.

ghost use Rattle.std.specs.Prelude.{◌≡◌, ◌<◌, ◌^◌};
ghost use Rattle.sval_json_read.specs.Offsets.{offset_of, number_of};

/// A place in a text, or a number of nodes: less than 2^48. It takes six bytes and begins at any even one, so that a
/// node takes twelve.
#[derive(Clone, Copy)]
pub(crate) struct Offset {
    high: u16,
    middle: u16,
    low: u16,
}

impl Offset {
    /// The greatest one.
    pub(crate) const MAX: usize = 0xffff_ffff_ffff;

    /// A number as an offset.
    #[inline(always)]
    pub(crate) fn new(number: usize) -> Offset
        requires { number < 2 ^ 48 }
        ensures { result ≡ offset_of number }
    {
        Offset {
            high: (number / 0x1_0000_0000) as u16,
            middle: (number / 0x1_0000 % 0x1_0000) as u16,
            low: (number % 0x1_0000) as u16,
        }
    }

    /// The number.
    #[inline(always)]
    pub(crate) fn get(self) -> usize
        ensures { result ≡ number_of self }
    {
        self.high as usize * 0x1_0000_0000 + self.middle as usize * 0x1_0000 + self.low as usize
    }
}
