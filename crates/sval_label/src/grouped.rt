//! The calls in groups.

ghost use Rattle.std.specs.Prelude.{◌≡◌, ⊤, ℕ, List};
ghost use Rattle.std.specs.Fmt.{signed_decimal};
ghost use Rattle.sval_label.specs.Made.{call_of};
ghost use Rattle.sval_label.specs.Grouped.{grouped_call, int_number};

use crate::call::AnyCall;
use crate::index::Index;
use crate::label::Label;
use crate::name::Name;
use crate::tag::Tag;
use itoa::Buffer;
use std::alloc::AllocError;

/// A whole number of any type.
#[derive(Clone, Copy, Debug, PartialEq, Eq)]
pub enum Int {
    /// Of 8 bits.
    U8(u8),
    /// Of 16 bits.
    U16(u16),
    /// Of 32 bits.
    U32(u32),
    /// Of 64 bits.
    U64(u64),
    /// Of 128 bits.
    U128(u128),
    /// Of 8 bits with its sign.
    I8(i8),
    /// Of 16 bits with its sign.
    I16(i16),
    /// Of 32 bits with its sign.
    I32(i32),
    /// Of 64 bits with its sign.
    I64(i64),
    /// Of 128 bits with its sign.
    I128(i128),
}

impl Int {
    /// Writes the number to `buffer` in decimal, with `-` in front where it is below 0, and gives that text.
    ///
    /// ```
    /// let mut buffer = Buffer::new();
    /// assert_eq!(rt; Int::I8(-7).format(&mut buffer), "-7");
    /// ```
    pub fn format(self, buffer: &mut Buffer) -> &str
        ensures { result.now ≡ signed_decimal (int_number self) }
    {
        match self {
            Int::U8(number) => buffer.format(number),
            Int::U16(number) => buffer.format(number),
            Int::U32(number) => buffer.format(number),
            Int::U64(number) => buffer.format(number),
            Int::U128(number) => buffer.format(number),
            Int::I8(number) => buffer.format(number),
            Int::I16(number) => buffer.format(number),
            Int::I32(number) => buffer.format(number),
            Int::I64(number) => buffer.format(number),
            Int::I128(number) => buffer.format(number),
        }
    }
}

/// A part of a text or of a binary.
#[derive(Clone, Copy, Debug)]
pub enum Fragment<T, C> {
    /// A stream may keep it.
    Borrowed(T),
    /// It lives for the call alone.
    Computed(C),
}

/// A container that has a size: what its begin and its end say.
#[derive(Clone, Copy, Debug)]
pub enum Head<'c> {
    /// A sequence.
    Seq,
    /// A map.
    Map,
    /// A record.
    Record(Name<'c>),
    /// A tuple.
    Tuple(Name<'c>),
    /// A record that is a tuple too.
    RecordTuple(Name<'c>),
}

/// The place of a container's part: what the part's begin and its end say.
#[derive(Clone, Copy, Debug)]
pub enum Slot<'c> {
    /// An item of a sequence.
    Item,
    /// A key of a map.
    Key,
    /// A value of a map.
    Value,
    /// A field of a record.
    Field(Option<&'c Tag>, &'c Label<'c>),
    /// A field of a tuple.
    Place(Option<&'c Tag>, &'c Index),
    /// A field of a record that is a tuple too.
    FieldPlace(Option<&'c Tag>, &'c Label<'c>, &'c Index),
}

/// A call by its group: calls that differ only in a number's type, in the container or in the part have one group.
///
/// A stream matches this, so that one arm serves all calls of a group. [`AnyCall::grouped`] makes it.
#[derive(Copy, Debug)]
pub enum GroupedCall<'c, T, B> {
    /// No value.
    Null,
    /// A truth value.
    Bool(bool),
    /// A whole number.
    Int(Int),
    /// A text begins, of this many bytes where a size is given.
    TextBegin(Option<usize>),
    /// A part of a text.
    TextFragment(Fragment<T, &'c str>),
    /// A text ends.
    TextEnd,
    /// A binary begins, of this many bytes where a size is given.
    BinaryBegin(Option<usize>),
    /// A part of a binary.
    BinaryFragment(Fragment<B, &'c [u8]>),
    /// A binary ends.
    BinaryEnd,
    /// An enum begins.
    EnumBegin(Name<'c>),
    /// An enum ends.
    EnumEnd(Name<'c>),
    /// A value with a name of its own begins.
    TaggedBegin(Name<'c>),
    /// A value with a name of its own ends.
    TaggedEnd(Name<'c>),
    /// A name that is a value.
    Tag(Name<'c>),
    /// A hint of what the value around it is for.
    TagHint(&'c Tag),
    /// A container begins, of this many entries where a size is given.
    Begin(Head<'c>, Option<usize>),
    /// A container ends.
    End(Head<'c>),
    /// A part of a container begins.
    PartBegin(Slot<'c>),
    /// A part of a container ends.
    PartEnd(Slot<'c>),
}

// Field by field, for the same reason as that of `AnyCall`.
impl<'c, T: Copy, B: Copy> Clone for GroupedCall<'c, T, B> {
    ghost is_clone = { λ call copy. copy ≡ call };

    ghost is_infallible = { λ _. ⊤ };

    fn clone(&self) -> Result<Self, AllocError> {
        match self {
            GroupedCall::Null => Ok(GroupedCall::Null),
            GroupedCall::Bool(value) => Ok(GroupedCall::Bool(*value)),
            GroupedCall::Int(number) => Ok(GroupedCall::Int(*number)),
            GroupedCall::TextBegin(size) => Ok(GroupedCall::TextBegin(*size)),
            GroupedCall::TextFragment(Fragment::Borrowed(text)) => {
                Ok(GroupedCall::TextFragment(Fragment::Borrowed(*text)))
            }
            GroupedCall::TextFragment(Fragment::Computed(text)) => {
                Ok(GroupedCall::TextFragment(Fragment::Computed(*text)))
            }
            GroupedCall::TextEnd => Ok(GroupedCall::TextEnd),
            GroupedCall::BinaryBegin(size) => Ok(GroupedCall::BinaryBegin(*size)),
            GroupedCall::BinaryFragment(Fragment::Borrowed(bytes)) => {
                Ok(GroupedCall::BinaryFragment(Fragment::Borrowed(*bytes)))
            }
            GroupedCall::BinaryFragment(Fragment::Computed(bytes)) => {
                Ok(GroupedCall::BinaryFragment(Fragment::Computed(*bytes)))
            }
            GroupedCall::BinaryEnd => Ok(GroupedCall::BinaryEnd),
            GroupedCall::EnumBegin(name) => Ok(GroupedCall::EnumBegin(*name)),
            GroupedCall::EnumEnd(name) => Ok(GroupedCall::EnumEnd(*name)),
            GroupedCall::TaggedBegin(name) => Ok(GroupedCall::TaggedBegin(*name)),
            GroupedCall::TaggedEnd(name) => Ok(GroupedCall::TaggedEnd(*name)),
            GroupedCall::Tag(name) => Ok(GroupedCall::Tag(*name)),
            GroupedCall::TagHint(tag) => Ok(GroupedCall::TagHint(*tag)),
            GroupedCall::Begin(head, size) => Ok(GroupedCall::Begin(*head, *size)),
            GroupedCall::End(head) => Ok(GroupedCall::End(*head)),
            GroupedCall::PartBegin(slot) => Ok(GroupedCall::PartBegin(*slot)),
            GroupedCall::PartEnd(slot) => Ok(GroupedCall::PartEnd(*slot)),
        }
    }
}

impl<'c, T, B> AnyCall<'c, T, B> {
    /// Gives this call by its group. [`GroupedCall::call`] is the inverse.
    #[inline(always)]
    pub fn grouped(self) -> GroupedCall<'c, T, B>
        ensures { (text : T → List ℕ) (bytes : B → List ℕ)
            → grouped_call text bytes result ≡ call_of text bytes self.entry }
    {
        match self {
            AnyCall::Null => GroupedCall::Null,
            AnyCall::Bool(value) => GroupedCall::Bool(value),
            AnyCall::U8(value) => GroupedCall::Int(Int::U8(value)),
            AnyCall::U16(value) => GroupedCall::Int(Int::U16(value)),
            AnyCall::U32(value) => GroupedCall::Int(Int::U32(value)),
            AnyCall::U64(value) => GroupedCall::Int(Int::U64(value)),
            AnyCall::U128(value) => GroupedCall::Int(Int::U128(value)),
            AnyCall::I8(value) => GroupedCall::Int(Int::I8(value)),
            AnyCall::I16(value) => GroupedCall::Int(Int::I16(value)),
            AnyCall::I32(value) => GroupedCall::Int(Int::I32(value)),
            AnyCall::I64(value) => GroupedCall::Int(Int::I64(value)),
            AnyCall::I128(value) => GroupedCall::Int(Int::I128(value)),
            AnyCall::TextBegin(size) => GroupedCall::TextBegin(size),
            AnyCall::TextFragment(fragment) => GroupedCall::TextFragment(Fragment::Borrowed(
                fragment,
            )),
            AnyCall::TextFragmentComputed(fragment) => GroupedCall::TextFragment(Fragment::Computed(
                fragment,
            )),
            AnyCall::TextEnd => GroupedCall::TextEnd,
            AnyCall::BinaryBegin(size) => GroupedCall::BinaryBegin(size),
            AnyCall::BinaryFragment(fragment) => GroupedCall::BinaryFragment(Fragment::Borrowed(
                fragment,
            )),
            AnyCall::BinaryFragmentComputed(fragment) => GroupedCall::BinaryFragment(
                Fragment::Computed(fragment),
            ),
            AnyCall::BinaryEnd => GroupedCall::BinaryEnd,
            AnyCall::MapBegin(size) => GroupedCall::Begin(Head::Map, size),
            AnyCall::MapKeyBegin => GroupedCall::PartBegin(Slot::Key),
            AnyCall::MapKeyEnd => GroupedCall::PartEnd(Slot::Key),
            AnyCall::MapValueBegin => GroupedCall::PartBegin(Slot::Value),
            AnyCall::MapValueEnd => GroupedCall::PartEnd(Slot::Value),
            AnyCall::MapEnd => GroupedCall::End(Head::Map),
            AnyCall::SeqBegin(size) => GroupedCall::Begin(Head::Seq, size),
            AnyCall::SeqValueBegin => GroupedCall::PartBegin(Slot::Item),
            AnyCall::SeqValueEnd => GroupedCall::PartEnd(Slot::Item),
            AnyCall::SeqEnd => GroupedCall::End(Head::Seq),
            AnyCall::EnumBegin(name) => GroupedCall::EnumBegin(name),
            AnyCall::EnumEnd(name) => GroupedCall::EnumEnd(name),
            AnyCall::TaggedBegin(name) => GroupedCall::TaggedBegin(name),
            AnyCall::TaggedEnd(name) => GroupedCall::TaggedEnd(name),
            AnyCall::Tag(name) => GroupedCall::Tag(name),
            AnyCall::TagHint(tag) => GroupedCall::TagHint(tag),
            AnyCall::RecordBegin(name, size) => GroupedCall::Begin(Head::Record(name), size),
            AnyCall::RecordValueBegin(tag, label) => GroupedCall::PartBegin(Slot::Field(
                tag, label,
            )),
            AnyCall::RecordValueEnd(tag, label) => GroupedCall::PartEnd(Slot::Field(tag, label)),
            AnyCall::RecordEnd(name) => GroupedCall::End(Head::Record(name)),
            AnyCall::TupleBegin(name, size) => GroupedCall::Begin(Head::Tuple(name), size),
            AnyCall::TupleValueBegin(tag, index) => GroupedCall::PartBegin(Slot::Place(tag, index)),
            AnyCall::TupleValueEnd(tag, index) => GroupedCall::PartEnd(Slot::Place(tag, index)),
            AnyCall::TupleEnd(name) => GroupedCall::End(Head::Tuple(name)),
            AnyCall::RecordTupleBegin(name, size) => GroupedCall::Begin(
                Head::RecordTuple(name),
                size,
            ),
            AnyCall::RecordTupleValueBegin(tag, label, index) => GroupedCall::PartBegin(
                Slot::FieldPlace(tag, label, index),
            ),
            AnyCall::RecordTupleValueEnd(tag, label, index) => GroupedCall::PartEnd(
                Slot::FieldPlace(tag, label, index),
            ),
            AnyCall::RecordTupleEnd(name) => GroupedCall::End(Head::RecordTuple(name)),
        }
    }
}

impl<'c, T, B> GroupedCall<'c, T, B> {
    /// Gives the call itself: the inverse of [`AnyCall::grouped`].
    #[inline(always)]
    pub fn call(self) -> AnyCall<'c, T, B>
        ensures { (text : T → List ℕ) (bytes : B → List ℕ)
            → call_of text bytes result ≡ grouped_call text bytes self.entry }
    {
        match self {
            GroupedCall::Null => AnyCall::Null,
            GroupedCall::Bool(value) => AnyCall::Bool(value),
            GroupedCall::Int(Int::U8(value)) => AnyCall::U8(value),
            GroupedCall::Int(Int::U16(value)) => AnyCall::U16(value),
            GroupedCall::Int(Int::U32(value)) => AnyCall::U32(value),
            GroupedCall::Int(Int::U64(value)) => AnyCall::U64(value),
            GroupedCall::Int(Int::U128(value)) => AnyCall::U128(value),
            GroupedCall::Int(Int::I8(value)) => AnyCall::I8(value),
            GroupedCall::Int(Int::I16(value)) => AnyCall::I16(value),
            GroupedCall::Int(Int::I32(value)) => AnyCall::I32(value),
            GroupedCall::Int(Int::I64(value)) => AnyCall::I64(value),
            GroupedCall::Int(Int::I128(value)) => AnyCall::I128(value),
            GroupedCall::TextBegin(size) => AnyCall::TextBegin(size),
            GroupedCall::TextFragment(Fragment::Borrowed(fragment)) => AnyCall::TextFragment(
                fragment,
            ),
            GroupedCall::TextFragment(Fragment::Computed(fragment)) =>
                AnyCall::TextFragmentComputed(fragment),
            GroupedCall::TextEnd => AnyCall::TextEnd,
            GroupedCall::BinaryBegin(size) => AnyCall::BinaryBegin(size),
            GroupedCall::BinaryFragment(Fragment::Borrowed(fragment)) => AnyCall::BinaryFragment(
                fragment,
            ),
            GroupedCall::BinaryFragment(Fragment::Computed(fragment)) =>
                AnyCall::BinaryFragmentComputed(fragment),
            GroupedCall::BinaryEnd => AnyCall::BinaryEnd,
            GroupedCall::Begin(Head::Map, size) => AnyCall::MapBegin(size),
            GroupedCall::PartBegin(Slot::Key) => AnyCall::MapKeyBegin,
            GroupedCall::PartEnd(Slot::Key) => AnyCall::MapKeyEnd,
            GroupedCall::PartBegin(Slot::Value) => AnyCall::MapValueBegin,
            GroupedCall::PartEnd(Slot::Value) => AnyCall::MapValueEnd,
            GroupedCall::End(Head::Map) => AnyCall::MapEnd,
            GroupedCall::Begin(Head::Seq, size) => AnyCall::SeqBegin(size),
            GroupedCall::PartBegin(Slot::Item) => AnyCall::SeqValueBegin,
            GroupedCall::PartEnd(Slot::Item) => AnyCall::SeqValueEnd,
            GroupedCall::End(Head::Seq) => AnyCall::SeqEnd,
            GroupedCall::EnumBegin(name) => AnyCall::EnumBegin(name),
            GroupedCall::EnumEnd(name) => AnyCall::EnumEnd(name),
            GroupedCall::TaggedBegin(name) => AnyCall::TaggedBegin(name),
            GroupedCall::TaggedEnd(name) => AnyCall::TaggedEnd(name),
            GroupedCall::Tag(name) => AnyCall::Tag(name),
            GroupedCall::TagHint(tag) => AnyCall::TagHint(tag),
            GroupedCall::Begin(Head::Record(name), size) => AnyCall::RecordBegin(name, size),
            GroupedCall::PartBegin(Slot::Field(tag, label)) => AnyCall::RecordValueBegin(
                tag, label,
            ),
            GroupedCall::PartEnd(Slot::Field(tag, label)) => AnyCall::RecordValueEnd(tag, label),
            GroupedCall::End(Head::Record(name)) => AnyCall::RecordEnd(name),
            GroupedCall::Begin(Head::Tuple(name), size) => AnyCall::TupleBegin(name, size),
            GroupedCall::PartBegin(Slot::Place(tag, index)) => AnyCall::TupleValueBegin(tag, index),
            GroupedCall::PartEnd(Slot::Place(tag, index)) => AnyCall::TupleValueEnd(tag, index),
            GroupedCall::End(Head::Tuple(name)) => AnyCall::TupleEnd(name),
            GroupedCall::Begin(Head::RecordTuple(name), size) => AnyCall::RecordTupleBegin(
                name, size,
            ),
            GroupedCall::PartBegin(Slot::FieldPlace(tag, label, index)) =>
                AnyCall::RecordTupleValueBegin(tag, label, index),
            GroupedCall::PartEnd(Slot::FieldPlace(tag, label, index)) =>
                AnyCall::RecordTupleValueEnd(tag, label, index),
            GroupedCall::End(Head::RecordTuple(name)) => AnyCall::RecordTupleEnd(name),
        }
    }
}
