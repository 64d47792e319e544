//! The styles of CBOR that a value is written in.

/// How a binary is written.
#[derive(Clone, Copy, Debug, PartialEq, Eq)]
pub enum Binaries {
    /// As an array of its bytes as numbers.
    Numbers,
    /// As a byte string (RFC 8949, section 3.1, major type 2).
    ByteStrings,
}

/// How the lengths of arrays and maps are written.
#[derive(Clone, Copy, Debug, PartialEq, Eq)]
pub enum Lengths {
    /// As indefinite: a break ends each (RFC 8949, section 3.2.2).
    Indefinite,
    /// As definite: the head has the number of items or pairs, in as few bytes as hold it (sections 3 and 4.2.1).
    Definite,
}

/// The forms of CBOR that [`stream_to_cbor_with`](crate::stream_to_cbor_with) writes, where RFC 8949 has several.
/// Further choices may come, so another crate begins with one of the constants and changes its fields:
///
/// ```
/// let mut style = Style::DEFINITE;
/// style.binaries = Binaries::Numbers;
/// ```
#[non_exhaustive]
#[derive(Clone, Copy, Debug, PartialEq, Eq)]
pub struct Style {
    /// How a binary is written.
    pub binaries: Binaries,
    /// How the lengths of arrays and maps are written.
    pub lengths: Lengths,
}

impl Style {
    /// What [`stream_to_cbor`](crate::stream_to_cbor) writes: a binary is an array of numbers, and lengths are
    /// indefinite.
    pub const DEFAULT: Style = Style {
        binaries: Binaries::Numbers,
        lengths: Lengths::Indefinite,
    };

    /// As [`Style::DEFAULT`], but a binary is a byte string.
    pub const BYTE_STRINGS: Style = Style {
        binaries: Binaries::ByteStrings,
        lengths: Lengths::Indefinite,
    };

    /// Byte strings and definite lengths, as most other tools write them. The pairs of a map keep their order, and equal
    /// keys stay.
    pub const DEFINITE: Style = Style {
        binaries: Binaries::ByteStrings,
        lengths: Lengths::Definite,
    };
}
