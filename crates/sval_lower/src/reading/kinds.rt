//! What is read of calls as truth values and numbers.

ghost use Rattle.std.specs.Prelude.{◌≡◌, Bool, false, ℤ, pos, option_map};
ghost use Rattle.sval_label.specs.Made.{lent_call};
ghost use Rattle.sval_label.specs.Calls.{IntType};
ghost use Rattle.sval_lower.specs.Readers.{truth_of, number_of, is_type, has_no_sign, is_around, is_passed_over};

use crate::reading::Reading;
use sval_core::{AnyCall, Call, Lent};

/// Whether a call comes around a value and says nothing of it.
pub(super) fn is_around(call: &Call<'_, '_>) -> bool
    ensures { result ≡ is_around (lent_call call.now) }
{
    match call {
        AnyCall::TaggedBegin(_)
        | AnyCall::TaggedEnd(_)
        | AnyCall::EnumBegin(_)
        | AnyCall::EnumEnd(_)
        | AnyCall::TagHint(_) => true,
        _ => false,
    }
}

/// Whether a call comes around a value, or is an empty fragment of a binary.
pub(super) fn is_passed_over(call: &Call<'_, '_>) -> bool
    ensures { result ≡ is_passed_over (lent_call call.now) }
{
    match call {
        AnyCall::BinaryFragment(bytes) => bytes.is_empty(),
        AnyCall::BinaryFragmentComputed(bytes) => bytes.is_empty(),
        _ => is_around(call),
    }
}

/// Reads truth values.
pub(crate) struct OfTruth;

impl<'v> Reading<Lent<'v>, bool> for OfTruth {
    ghost Read = { Bool };

    ghost seen = { λ b. b };

    ghost read_of = { truth_of };

    ghost over = { is_passed_over };

    ghost once = { false };

    fn reads_one() -> bool
        ensures { result ≡ false }
    {
        false
    }

    fn read(call: &Call<'v, '_>) -> Option<bool>
        ensures { option_map (λ b. b) result ≡ truth_of (lent_call call.now) }
    {
        match call {
            AnyCall::Bool(value) => Some(*value),
            _ => None,
        }
    }

    fn passes_over(call: &Call<'v, '_>) -> bool
        ensures { result ≡ is_passed_over (lent_call call.now) }
    {
        is_passed_over(call)
    }
}

/// Reads whole numbers without a sign.
pub(crate) struct OfUnsigned;

impl<'v> Reading<Lent<'v>, u128> for OfUnsigned {
    ghost Read = { ℤ };

    ghost seen = { λ n. pos n };

    ghost read_of = { number_of has_no_sign };

    ghost over = { is_passed_over };

    ghost once = { false };

    fn reads_one() -> bool
        ensures { result ≡ false }
    {
        false
    }

    fn read(call: &Call<'v, '_>) -> Option<u128>
        ensures { option_map (λ n. pos n) result ≡ number_of has_no_sign (lent_call call.now) }
    {
        match call {
            AnyCall::U8(value) => Some(u128::from(*value)),
            AnyCall::U16(value) => Some(u128::from(*value)),
            AnyCall::U32(value) => Some(u128::from(*value)),
            AnyCall::U64(value) => Some(u128::from(*value)),
            AnyCall::U128(value) => Some(*value),
            _ => None,
        }
    }

    fn passes_over(call: &Call<'v, '_>) -> bool
        ensures { result ≡ is_passed_over (lent_call call.now) }
    {
        is_passed_over(call)
    }
}

/// A type of whole numbers with a sign, which has a call of its own.
pub(crate) trait Signed: Copy {
    /// The type, as calls say it.
    ghost kind: { IntType };

    /// The number that it stands for.
    ghost number: { Self → ℤ };

    /// The number of a call of this type.
    fn of_call(call: &Call<'_, '_>) -> Option<Self>
        ensures { option_map number result ≡ number_of (is_type kind) (lent_call call.now) };
}

impl Signed for i8 {
    ghost kind = { IntType.I8 };

    ghost number = { λ n. n };

    fn of_call(call: &Call<'_, '_>) -> Option<i8> {
        match call {
            AnyCall::I8(value) => Some(*value),
            _ => None,
        }
    }
}

impl Signed for i16 {
    ghost kind = { IntType.I16 };

    ghost number = { λ n. n };

    fn of_call(call: &Call<'_, '_>) -> Option<i16> {
        match call {
            AnyCall::I16(value) => Some(*value),
            _ => None,
        }
    }
}

impl Signed for i32 {
    ghost kind = { IntType.I32 };

    ghost number = { λ n. n };

    fn of_call(call: &Call<'_, '_>) -> Option<i32> {
        match call {
            AnyCall::I32(value) => Some(*value),
            _ => None,
        }
    }
}

impl Signed for i64 {
    ghost kind = { IntType.I64 };

    ghost number = { λ n. n };

    fn of_call(call: &Call<'_, '_>) -> Option<i64> {
        match call {
            AnyCall::I64(value) => Some(*value),
            _ => None,
        }
    }
}

impl Signed for i128 {
    ghost kind = { IntType.I128 };

    ghost number = { λ n. n };

    fn of_call(call: &Call<'_, '_>) -> Option<i128> {
        match call {
            AnyCall::I128(value) => Some(*value),
            _ => None,
        }
    }
}

/// Reads whole numbers of one type with a sign.
pub(crate) struct OfSigned;

impl<'v, T: Signed> Reading<Lent<'v>, T> for OfSigned {
    ghost Read = { ℤ };

    ghost seen = { T.number };

    ghost read_of = { number_of (is_type T.kind) };

    ghost over = { is_passed_over };

    ghost once = { false };

    fn reads_one() -> bool
        ensures { result ≡ false }
    {
        false
    }

    fn read(call: &Call<'v, '_>) -> Option<T>
        ensures { option_map T.number result ≡ number_of (is_type T.kind) (lent_call call.now) }
    {
        T::of_call(call)
    }

    fn passes_over(call: &Call<'v, '_>) -> bool
        ensures { result ≡ is_passed_over (lent_call call.now) }
    {
        is_passed_over(call)
    }
}
