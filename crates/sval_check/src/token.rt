//! Calls that are kept.

ghost use Rattle.std.specs.Prelude.{◌≡◌, None};

use crate::fragments::{TokenBytes, TokenText};
use sval_core::{Index, Label, Tag};

/// A name that is kept: that of an enum, a tagged value or a container, with a copy of its label.
#[derive(Drop, Debug, PartialEq, Eq)]
pub struct TokenName {
    /// The hint.
    pub tag: Option<Tag>,
    /// The text.
    pub label: Option<Label<'static>>,
    /// The number.
    pub index: Option<Index>,
}

impl TokenName {
    /// No name.
    pub fn none() -> Self
        ensures tag { result.tag ≡ None }
        ensures label { result.label ≡ None }
        ensures index { result.index ≡ None }
    {
        TokenName {
            tag: None,
            label: None,
            index: None,
        }
    }
}

/// A call that is kept, with one variant for each call.
///
/// A [`TokenBuf`](crate::TokenBuf) makes them. A borrowed fragment is the reference that came, and a computed one a
/// copy. Two tokens are equal where they are of the same call and say the same: texts, bytes, numbers and sizes. Labels
/// are compared by their texts and indexes by their numbers, whatever their tags
/// ([`laws::tokens_are_equal`](crate::laws::tokens_are_equal)).
#[derive(Drop, Debug, PartialEq, Eq)]
pub enum Token<'sval> {
    /// No value.
    Null,
    /// A truth value.
    Bool(bool),
    /// A whole number of 8 bits.
    U8(u8),
    /// A whole number of 16 bits.
    U16(u16),
    /// A whole number of 32 bits.
    U32(u32),
    /// A whole number of 64 bits.
    U64(u64),
    /// A whole number of 128 bits.
    U128(u128),
    /// A whole number of 8 bits with its sign.
    I8(i8),
    /// A whole number of 16 bits with its sign.
    I16(i16),
    /// A whole number of 32 bits with its sign.
    I32(i32),
    /// A whole number of 64 bits with its sign.
    I64(i64),
    /// A whole number of 128 bits with its sign.
    I128(i128),
    /// A text begins, of this many bytes where a size is given.
    TextBegin(Option<usize>),
    /// A borrowed part of a text.
    TextFragment(&'sval str),
    /// A computed part of a text.
    TextFragmentComputed(TokenText),
    /// A text ends.
    TextEnd,
    /// A binary begins, of this many bytes where a size is given.
    BinaryBegin(Option<usize>),
    /// A borrowed part of a binary.
    BinaryFragment(&'sval [u8]),
    /// A computed part of a binary.
    BinaryFragmentComputed(TokenBytes),
    /// A binary ends.
    BinaryEnd,
    /// A map begins, of this many entries where a size is given.
    MapBegin(Option<usize>),
    /// A key of a map begins.
    MapKeyBegin,
    /// A key of a map ends.
    MapKeyEnd,
    /// A value of a map begins.
    MapValueBegin,
    /// A value of a map ends.
    MapValueEnd,
    /// A map ends.
    MapEnd,
    /// A sequence begins, of this many items where a size is given.
    SeqBegin(Option<usize>),
    /// An item of a sequence begins.
    SeqValueBegin,
    /// An item of a sequence ends.
    SeqValueEnd,
    /// A sequence ends.
    SeqEnd,
    /// An enum begins.
    EnumBegin(TokenName),
    /// An enum ends.
    EnumEnd(TokenName),
    /// A value with a name of its own begins.
    TaggedBegin(TokenName),
    /// A value with a name of its own ends.
    TaggedEnd(TokenName),
    /// A name that is a value.
    Tag(TokenName),
    /// A hint of what the value around it is for.
    TagHint(Tag),
    /// A record begins, of this many fields where a size is given.
    RecordBegin(TokenName, Option<usize>),
    /// A field of a record begins.
    RecordValueBegin(Option<Tag>, Label<'static>),
    /// A field of a record ends.
    RecordValueEnd(Option<Tag>, Label<'static>),
    /// A record ends.
    RecordEnd(TokenName),
    /// A tuple begins, of this many fields where a size is given.
    TupleBegin(TokenName, Option<usize>),
    /// A field of a tuple begins.
    TupleValueBegin(Option<Tag>, Index),
    /// A field of a tuple ends.
    TupleValueEnd(Option<Tag>, Index),
    /// A tuple ends.
    TupleEnd(TokenName),
    /// A record that is a tuple too begins, of this many fields where a size is given.
    RecordTupleBegin(TokenName, Option<usize>),
    /// A field of a record that is a tuple too begins.
    RecordTupleValueBegin(Option<Tag>, Label<'static>, Index),
    /// A field of a record that is a tuple too ends.
    RecordTupleValueEnd(Option<Tag>, Label<'static>, Index),
    /// A record that is a tuple too ends.
    RecordTupleEnd(TokenName),
}
