//! The readers as methods.

ghost use Rattle.std.specs.Prelude.{◌≡◌, option_map, pos};
ghost use Rattle.sval_lower.specs.Readers as read;

use crate::default_value;
use crate::reading::GivenTag;
use sval_core::{Lent, Value};

/// What each value says, read from its calls.
///
/// Every value has these methods, and none can replace one: each is that of [`default_value`](crate::default_value).
pub trait Readers<'v>: Value<'v, Lent<'v>> {
    /// The tag that the value's first call gives, after hints, ends of tagged values and enums, and empty fragments of
    /// binaries, as [`default_value::tag`](crate::default_value::tag) finds it.
    final fn tag<T: GivenTag>(&'v self) -> Option<T>
        ensures { option_map T.text result ≡ read.first_tag (Self.emission self.now) }
    {
        default_value::tag(self)
    }

    /// The last truth value of a value that says nothing else and doesn't refuse, as
    /// [`default_value::to_bool`](crate::default_value::to_bool) finds it.
    final fn to_bool(&'v self) -> Option<bool>
        ensures { result ≡ read.to_bool (Self.emission self.now) }
    {
        default_value::to_bool(self)
    }

    /// The last `i8`, or else the last `i128` where that is in range, of a value that says nothing else and doesn't
    /// refuse, as [`default_value::to_i8`](crate::default_value::to_i8) finds it.
    final fn to_i8(&'v self) -> Option<i8>
        ensures { result ≡ read.to_i8 (Self.emission self.now) }
    {
        default_value::to_i8(self)
    }

    /// The last `i16`, or else the last `i128` where that is in range, of a value that says nothing else and doesn't
    /// refuse, as [`default_value::to_i16`](crate::default_value::to_i16) finds it.
    final fn to_i16(&'v self) -> Option<i16>
        ensures { result ≡ read.to_i16 (Self.emission self.now) }
    {
        default_value::to_i16(self)
    }

    /// The last `i32`, or else the last `i128` where that is in range, of a value that says nothing else and doesn't
    /// refuse, as [`default_value::to_i32`](crate::default_value::to_i32) finds it.
    final fn to_i32(&'v self) -> Option<i32>
        ensures { result ≡ read.to_i32 (Self.emission self.now) }
    {
        default_value::to_i32(self)
    }

    /// The last `i64`, or else the last `i128` where that is in range, of a value that says nothing else and doesn't
    /// refuse, as [`default_value::to_i64`](crate::default_value::to_i64) finds it.
    final fn to_i64(&'v self) -> Option<i64>
        ensures { result ≡ read.to_i64 (Self.emission self.now) }
    {
        default_value::to_i64(self)
    }

    /// The last `i128` of a value that says nothing else and doesn't refuse, as
    /// [`default_value::to_i128`](crate::default_value::to_i128) finds it.
    final fn to_i128(&'v self) -> Option<i128>
        ensures { result ≡ read.to_i128 (Self.emission self.now) }
    {
        default_value::to_i128(self)
    }

    /// The last number without a sign, of any type, where it is in the range of `u8`, of a value that says nothing else
    /// and doesn't refuse, as [`default_value::to_u8`](crate::default_value::to_u8) finds it.
    final fn to_u8(&'v self) -> Option<u8>
        ensures { option_map (λ n. pos n) result ≡ read.to_u8 (Self.emission self.now) }
    {
        default_value::to_u8(self)
    }

    /// The last number without a sign, of any type, where it is in the range of `u16`, of a value that says nothing
    /// else and doesn't refuse, as [`default_value::to_u16`](crate::default_value::to_u16) finds it.
    final fn to_u16(&'v self) -> Option<u16>
        ensures { option_map (λ n. pos n) result ≡ read.to_u16 (Self.emission self.now) }
    {
        default_value::to_u16(self)
    }

    /// The last number without a sign, of any type, where it is in the range of `u32`, of a value that says nothing
    /// else and doesn't refuse, as [`default_value::to_u32`](crate::default_value::to_u32) finds it.
    final fn to_u32(&'v self) -> Option<u32>
        ensures { option_map (λ n. pos n) result ≡ read.to_u32 (Self.emission self.now) }
    {
        default_value::to_u32(self)
    }

    /// The last number without a sign, of any type, where it is in the range of `u64`, of a value that says nothing
    /// else and doesn't refuse, as [`default_value::to_u64`](crate::default_value::to_u64) finds it.
    final fn to_u64(&'v self) -> Option<u64>
        ensures { option_map (λ n. pos n) result ≡ read.to_u64 (Self.emission self.now) }
    {
        default_value::to_u64(self)
    }

    /// The last number without a sign, of any type, of a value that says nothing else and doesn't refuse, as
    /// [`default_value::to_u128`](crate::default_value::to_u128) finds it.
    final fn to_u128(&'v self) -> Option<u128>
        ensures { option_map (λ n. pos n) result ≡ read.to_u128 (Self.emission self.now) }
    {
        default_value::to_u128(self)
    }

    /// The one text that the value lends, where it says nothing else and doesn't refuse, as
    /// [`default_value::to_text`](crate::default_value::to_text) finds it.
    final fn to_text(&'v self) -> Option<&'v str>
        ensures { option_map (λ text. text.now) result ≡ read.to_text (Self.emission self.now) }
    {
        default_value::to_text(self)
    }

    /// The one fragment of bytes that the value lends, where it says nothing else and doesn't refuse, as
    /// [`default_value::to_binary`](crate::default_value::to_binary) finds it.
    final fn to_binary(&'v self) -> Option<&'v [u8]>
        ensures { option_map (λ binary. binary.now) result ≡ read.to_binary (Self.emission self.now) }
    {
        default_value::to_binary(self)
    }
}

impl<'v, V: Value<'v, Lent<'v>>> Readers<'v> for V {}
