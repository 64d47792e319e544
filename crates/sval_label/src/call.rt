//! The calls.

ghost use Rattle.std.specs.Prelude.{◌≡◌, ⊤};

use crate::index::Index;
use crate::label::Label;
use crate::name::Name;
use crate::tag::Tag;
use std::alloc::AllocError;
use std::fmt;
use std::marker::PhantomData;

/// What a stream may keep of the calls that it takes: texts and bytes that outlive the call.
///
/// A stream is generic in what is lent to it, so that a forwarder needs to name no lifetime.
pub trait Lending {
    ghost use Rattle.std.specs.Prelude.{◌≡◌, ℕ, List, length};

    /// A borrowed text.
    type Text: Copy;

    /// Borrowed bytes.
    type Bytes: Copy;

    /// The UTF-8 of a borrowed text.
    ghost text: { Self.Text → List ℕ };

    /// What borrowed bytes are.
    ghost bytes: { Self.Bytes → List ℕ };

    /// A borrowed text as a `str`, for as long as it is lent.
    fn as_str<'a>(lent: &'a Self::Text) -> &'a str
        ensures { result.now ≡ Self.text lent.now };

    /// Borrowed bytes as a slice, for as long as they are lent.
    fn as_bytes<'a>(lent: &'a Self::Bytes) -> &'a [u8]
        ensures { result.now ≡ Self.bytes lent.now };

    /// The number of bytes of a borrowed text.
    fn text_len(lent: Self::Text) -> usize
        ensures { result ≡ length (Self.text lent) };

    /// The number of borrowed bytes.
    fn bytes_len(lent: Self::Bytes) -> usize
        ensures { result ≡ length (Self.bytes lent) };
}

/// Texts and bytes that live for `'sval`.
pub struct Lent<'sval> {
    lifetime: PhantomData<&'sval ()>,
}

impl<'sval> Lending for Lent<'sval> {
    type Text = &'sval str;

    type Bytes = &'sval [u8];

    ghost text = { λ text. text.now };

    ghost bytes = { λ bytes. bytes.now };

    fn as_str<'a>(lent: &'a &'sval str) -> &'a str {
        *lent
    }

    fn as_bytes<'a>(lent: &'a &'sval [u8]) -> &'a [u8] {
        *lent
    }

    fn text_len(lent: &'sval str) -> usize {
        lent.len()
    }

    fn bytes_len(lent: &'sval [u8]) -> usize {
        lent.len()
    }
}

/// A call as plain data, for any type `T` of borrowed texts and any type `B` of borrowed bytes. Most code says
/// [`Call`].
///
/// A text or a binary is its begin, any number of fragments and its end. Anything else that has a begin is that, its
/// parts, each between a begin and an end of its own, and its end. A size is the number of a text's or a binary's
/// bytes, or of a container's entries.
///
/// [`AnyCall::grouped`] has the calls that differ in little more than their words as one.
#[derive(Copy)]
pub enum AnyCall<'c, T, B> {
    /// No value.
    Null,
    /// A truth value.
    Bool(bool),
    /// A whole number of 8 bits.
    U8(u8),
    /// A whole number of 16 bits.
    U16(u16),
    /// A whole number of 32 bits.
    U32(u32),
    /// A whole number of 64 bits.
    U64(u64),
    /// A whole number of 128 bits.
    U128(u128),
    /// A whole number of 8 bits with its sign.
    I8(i8),
    /// A whole number of 16 bits with its sign.
    I16(i16),
    /// A whole number of 32 bits with its sign.
    I32(i32),
    /// A whole number of 64 bits with its sign.
    I64(i64),
    /// A whole number of 128 bits with its sign.
    I128(i128),
    /// A text begins, of this many bytes where a size is given.
    TextBegin(Option<usize>),
    /// A part of a text, which a stream may keep.
    TextFragment(T),
    /// A part of a text, which lives for the call alone.
    TextFragmentComputed(&'c str),
    /// A text ends.
    TextEnd,
    /// A binary begins, of this many bytes where a size is given.
    BinaryBegin(Option<usize>),
    /// A part of a binary, which a stream may keep.
    BinaryFragment(B),
    /// A part of a binary, which lives for the call alone.
    BinaryFragmentComputed(&'c [u8]),
    /// A binary ends.
    BinaryEnd,
    /// A map begins, of this many entries where a size is given.
    MapBegin(Option<usize>),
    /// A key of a map begins.
    MapKeyBegin,
    /// A key of a map ends.
    MapKeyEnd,
    /// A value of a map begins.
    MapValueBegin,
    /// A value of a map ends.
    MapValueEnd,
    /// A map ends.
    MapEnd,
    /// A sequence begins, of this many items where a size is given.
    SeqBegin(Option<usize>),
    /// An item of a sequence begins.
    SeqValueBegin,
    /// An item of a sequence ends.
    SeqValueEnd,
    /// A sequence ends.
    SeqEnd,
    /// An enum begins: a value that is one of several variants.
    EnumBegin(Name<'c>),
    /// An enum ends.
    EnumEnd(Name<'c>),
    /// A value with a name of its own begins.
    TaggedBegin(Name<'c>),
    /// A value with a name of its own ends.
    TaggedEnd(Name<'c>),
    /// A name that is a value.
    Tag(Name<'c>),
    /// A hint of what the value around it is for.
    TagHint(&'c Tag),
    /// A record begins, of this many fields where a size is given.
    RecordBegin(Name<'c>, Option<usize>),
    /// A field of a record begins.
    RecordValueBegin(Option<&'c Tag>, &'c Label<'c>),
    /// A field of a record ends.
    RecordValueEnd(Option<&'c Tag>, &'c Label<'c>),
    /// A record ends.
    RecordEnd(Name<'c>),
    /// A tuple begins, of this many fields where a size is given.
    TupleBegin(Name<'c>, Option<usize>),
    /// A field of a tuple begins.
    TupleValueBegin(Option<&'c Tag>, &'c Index),
    /// A field of a tuple ends.
    TupleValueEnd(Option<&'c Tag>, &'c Index),
    /// A tuple ends.
    TupleEnd(Name<'c>),
    /// A record that is a tuple too begins, of this many fields where a size is given.
    RecordTupleBegin(Name<'c>, Option<usize>),
    /// A field of a record that is a tuple too begins.
    RecordTupleValueBegin(Option<&'c Tag>, &'c Label<'c>, &'c Index),
    /// A field of a record that is a tuple too ends.
    RecordTupleValueEnd(Option<&'c Tag>, &'c Label<'c>, &'c Index),
    /// A record that is a tuple too ends.
    RecordTupleEnd(Name<'c>),
}

// Field by field, since the checker covers no `*self` of a type parameter, and what is derived takes it minutes.
impl<'c, T: Copy, B: Copy> Clone for AnyCall<'c, T, B> {
    ghost is_clone = { λ call copy. copy ≡ call };

    ghost is_infallible = { λ _. ⊤ };

    fn clone(&self) -> Result<Self, AllocError> {
        match self {
            AnyCall::Null => Ok(AnyCall::Null),
            AnyCall::Bool(value) => Ok(AnyCall::Bool(*value)),
            AnyCall::U8(number) => Ok(AnyCall::U8(*number)),
            AnyCall::U16(number) => Ok(AnyCall::U16(*number)),
            AnyCall::U32(number) => Ok(AnyCall::U32(*number)),
            AnyCall::U64(number) => Ok(AnyCall::U64(*number)),
            AnyCall::U128(number) => Ok(AnyCall::U128(*number)),
            AnyCall::I8(number) => Ok(AnyCall::I8(*number)),
            AnyCall::I16(number) => Ok(AnyCall::I16(*number)),
            AnyCall::I32(number) => Ok(AnyCall::I32(*number)),
            AnyCall::I64(number) => Ok(AnyCall::I64(*number)),
            AnyCall::I128(number) => Ok(AnyCall::I128(*number)),
            AnyCall::TextBegin(size) => Ok(AnyCall::TextBegin(*size)),
            AnyCall::TextFragment(fragment) => Ok(AnyCall::TextFragment(*fragment)),
            AnyCall::TextFragmentComputed(fragment) => Ok(AnyCall::TextFragmentComputed(*fragment)),
            AnyCall::TextEnd => Ok(AnyCall::TextEnd),
            AnyCall::BinaryBegin(size) => Ok(AnyCall::BinaryBegin(*size)),
            AnyCall::BinaryFragment(fragment) => Ok(AnyCall::BinaryFragment(*fragment)),
            AnyCall::BinaryFragmentComputed(fragment) => Ok(AnyCall::BinaryFragmentComputed(
                *fragment,
            )),
            AnyCall::BinaryEnd => Ok(AnyCall::BinaryEnd),
            AnyCall::MapBegin(size) => Ok(AnyCall::MapBegin(*size)),
            AnyCall::MapKeyBegin => Ok(AnyCall::MapKeyBegin),
            AnyCall::MapKeyEnd => Ok(AnyCall::MapKeyEnd),
            AnyCall::MapValueBegin => Ok(AnyCall::MapValueBegin),
            AnyCall::MapValueEnd => Ok(AnyCall::MapValueEnd),
            AnyCall::MapEnd => Ok(AnyCall::MapEnd),
            AnyCall::SeqBegin(size) => Ok(AnyCall::SeqBegin(*size)),
            AnyCall::SeqValueBegin => Ok(AnyCall::SeqValueBegin),
            AnyCall::SeqValueEnd => Ok(AnyCall::SeqValueEnd),
            AnyCall::SeqEnd => Ok(AnyCall::SeqEnd),
            AnyCall::EnumBegin(name) => Ok(AnyCall::EnumBegin(*name)),
            AnyCall::EnumEnd(name) => Ok(AnyCall::EnumEnd(*name)),
            AnyCall::TaggedBegin(name) => Ok(AnyCall::TaggedBegin(*name)),
            AnyCall::TaggedEnd(name) => Ok(AnyCall::TaggedEnd(*name)),
            AnyCall::Tag(name) => Ok(AnyCall::Tag(*name)),
            AnyCall::TagHint(tag) => Ok(AnyCall::TagHint(*tag)),
            AnyCall::RecordBegin(name, size) => Ok(AnyCall::RecordBegin(*name, *size)),
            AnyCall::RecordValueBegin(tag, label) => Ok(AnyCall::RecordValueBegin(*tag, *label)),
            AnyCall::RecordValueEnd(tag, label) => Ok(AnyCall::RecordValueEnd(*tag, *label)),
            AnyCall::RecordEnd(name) => Ok(AnyCall::RecordEnd(*name)),
            AnyCall::TupleBegin(name, size) => Ok(AnyCall::TupleBegin(*name, *size)),
            AnyCall::TupleValueBegin(tag, index) => Ok(AnyCall::TupleValueBegin(*tag, *index)),
            AnyCall::TupleValueEnd(tag, index) => Ok(AnyCall::TupleValueEnd(*tag, *index)),
            AnyCall::TupleEnd(name) => Ok(AnyCall::TupleEnd(*name)),
            AnyCall::RecordTupleBegin(name, size) => Ok(AnyCall::RecordTupleBegin(*name, *size)),
            AnyCall::RecordTupleValueBegin(tag, label, index) => Ok(AnyCall::RecordTupleValueBegin(
                *tag, *label, *index,
            )),
            AnyCall::RecordTupleValueEnd(tag, label, index) => Ok(AnyCall::RecordTupleValueEnd(
                *tag, *label, *index,
            )),
            AnyCall::RecordTupleEnd(name) => Ok(AnyCall::RecordTupleEnd(*name)),
        }
    }
}

/// A call prints as [`AnyCall::grouped`] has it.
impl<'c, T: Copy + fmt::Debug, B: Copy + fmt::Debug> fmt::Debug for AnyCall<'c, T, B> {
    fn fmt<W: fmt::Write>(&self, f: &mut fmt::Formatter<W>) -> fmt::Result {
        match self.clone() {
            Ok(call) => fmt::Debug::fmt(&call.grouped(), f),
            Err(_) => Err(fmt::Error),
        }
    }
}

/// A call whose borrowed fragments live for `'sval`, and all else for `'c`.
pub type Call<'sval, 'c> = AnyCall<'c, &'sval str, &'sval [u8]>;
