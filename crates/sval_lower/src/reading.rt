//! The streams of readers: each refuses the first call that its answer doesn't allow, and keeps no list.

mod item;
mod kinds;
mod lent;
mod tag;

ghost use Rattle.std.specs.Prelude.{◌≡◌, Bool, Option, option_map};
ghost use Rattle.sval_label.specs.Made.{call_of};
ghost use Rattle.sval_label.specs.Calls.{Call};

pub(crate) use item::item;
pub(crate) use kinds::{OfSigned, OfTruth, OfUnsigned};
pub(crate) use lent::{OfBinary, OfText};
use sval_core::{AnyCall, Lending};
pub(crate) use tag::FirstTag;
pub use tag::GivenTag;

/// What is read of each call, as a `T`, and which calls are passed over.
pub(crate) trait Reading<L: Lending, T> {
    /// What is read, as plain data.
    ghost Read: { Type 0 };

    /// What a `T` stands for.
    ghost seen: { T → Read };

    /// What is read of a call.
    ghost read_of: { Call → Option Read };

    /// Which of the calls that aren't read are passed over.
    ghost over: { Call → Bool };

    /// Whether no second item is read.
    ghost once: { Bool };

    /// Whether no second item is read.
    fn reads_one() -> bool
        ensures { result ≡ once };

    /// What is read of a call.
    fn read(call: &AnyCall<'_, L::Text, L::Bytes>) -> Option<T>
        ensures { option_map seen result ≡ read_of (call_of L.text L.bytes call.now) };

    /// Whether a call is passed over.
    fn passes_over(call: &AnyCall<'_, L::Text, L::Bytes>) -> bool
        ensures { result ≡ over (call_of L.text L.bytes call.now) };
}
