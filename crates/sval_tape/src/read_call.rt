//! Calls that were read from a tape.

ghost use Rattle.std.specs.Prelude.{◌≡◌, option_map};
ghost use Rattle.sval_label.specs.Grouped.{int_call};
ghost use Rattle.sval_label.specs.SeenIndex.{seen_index, untagged};
ghost use Rattle.sval_label.specs.SeenTags.{seen_tag};
ghost use Rattle.sval_label.specs.Calls as call;
ghost use Rattle.sval_core.specs.Law.{Answers};
ghost use Rattle.sval_tape.specs.ReadCalls.{tape_alone_call, tape_opening_call, tape_named_call, tape_head_of, tape_part_call, tag_read, index_number_read, index_read, label_read, name_read, call_read};

use sval_core::{Lent, Result, Stream};
use sval_label::{Index, Int, Label, Lending, Tag};

/// The calls without an operand.
#[derive(Clone, Copy)]
pub(crate) enum Alone {
    Null,
    TextEnd,
    BinaryEnd,
    SeqEnd,
    MapEnd,
    ItemBegin,
    ItemEnd,
    KeyBegin,
    KeyEnd,
    ValueBegin,
    ValueEnd,
}

/// The calls with a size alone.
#[derive(Clone, Copy)]
pub(crate) enum Opening {
    Text,
    Binary,
    Seq,
    Map,
}

/// The calls with a name alone.
#[derive(Clone, Copy)]
pub(crate) enum Named {
    Tag,
    EnumBegin,
    EnumEnd,
    TaggedBegin,
    TaggedEnd,
    RecordEnd,
    TupleEnd,
    RecordTupleEnd,
}

/// The containers with a name.
#[derive(Clone, Copy)]
pub(crate) enum Container {
    Record,
    Tuple,
    RecordTuple,
}

/// Whether a part begins or ends.
#[derive(Clone, Copy)]
pub(crate) enum Side {
    Begin,
    End,
}

/// The ten tags. A [`Tag`] borrows its text for `'static`, which no signature may name beside another lifetime.
#[derive(Clone, Copy)]
pub(crate) enum TagRead {
    RustOptionSome,
    RustOptionNone,
    RustUnit,
    Number,
    ConstantSize,
    ValueIdent,
    ValueOffset,
    JsonValue,
    JsonText,
    JsonNumber,
}

/// A label: its text and its tag.
#[derive(Clone, Copy)]
pub(crate) struct LabelRead<'sval> {
    pub(crate) text: &'sval str,
    pub(crate) tag: Option<TagRead>,
}

/// The number of an index.
#[derive(Clone, Copy)]
pub(crate) enum IndexNumber {
    Unsigned(u64),
    Signed(i64),
}

/// An index: its number and its tag.
#[derive(Clone, Copy)]
pub(crate) struct IndexRead {
    pub(crate) number: IndexNumber,
    pub(crate) tag: Option<TagRead>,
}

/// A name: its tag, its label and its index.
#[derive(Clone, Copy)]
pub(crate) struct NameRead<'sval> {
    pub(crate) tag: Option<TagRead>,
    pub(crate) label: Option<LabelRead<'sval>>,
    pub(crate) index: Option<IndexRead>,
}

/// A call with its operands.
#[derive(Clone, Copy)]
pub(crate) enum CallRead<'sval> {
    Alone(Alone),
    Bool(bool),
    Int(Int),
    Opening(Opening, Option<usize>),
    Text(bool, &'sval str),
    Binary(bool, &'sval [u8]),
    TagHint(TagRead),
    Named(Named, NameRead<'sval>),
    Begin(Container, NameRead<'sval>, Option<usize>),
    Field(Side, Option<TagRead>, LabelRead<'sval>),
    Place(Side, Option<TagRead>, IndexRead),
    FieldPlace(Side, Option<TagRead>, LabelRead<'sval>, IndexRead),
}

impl TagRead {
    /// The tag.
    #[inline(always)]
    fn tag(self) -> Tag
        ensures { seen_tag result ≡ tag_read self }
    {
        match self {
            TagRead::RustOptionSome => Tag::new("RUST_OPTION_SOME"),
            TagRead::RustOptionNone => Tag::new("RUST_OPTION_NONE"),
            TagRead::RustUnit => Tag::new("RUST_UNIT"),
            TagRead::Number => Tag::new("NUMBER"),
            TagRead::ConstantSize => Tag::new("CONSTANT_SIZE"),
            TagRead::ValueIdent => Tag::new("VALUE_IDENT"),
            TagRead::ValueOffset => Tag::new("VALUE_OFFSET"),
            TagRead::JsonValue => Tag::new("JSON_VALUE"),
            TagRead::JsonText => Tag::new("JSON_TEXT"),
            TagRead::JsonNumber => Tag::new("JSON_NUMBER"),
        }
    }
}

/// The tag, where one is given.
#[inline(always)]
fn tag_option(tag: Option<TagRead>) -> Option<Tag>
    ensures { option_map seen_tag result ≡ option_map tag_read tag }
{
    match tag {
        None => None,
        Some(tag) => Some(tag.tag()),
    }
}

/// The label of this text and this tag.
#[inline(always)]
fn make_label(label: LabelRead<'_>) -> Label<'_>
    ensures { result ≡ label_read label.entry }
{
    let made = Label::new_computed(label.text);
    match label.tag {
        None => made,
        Some(tag) => made.with_tag(&tag.tag()),
    }
}

/// The index of this number.
#[inline(always)]
fn untagged_index(number: IndexNumber) -> Index
    ensures { seen_index result ≡ untagged (index_number_read number) }
{
    match number {
        IndexNumber::Unsigned(number) => Index::new_u64(number),
        IndexNumber::Signed(number) => Index::new_i64(number),
    }
}

/// The index of this number and this tag.
#[inline(always)]
fn make_index(index: IndexRead) -> Index
    ensures { seen_index result ≡ index_read index }
{
    let made = untagged_index(index.number);
    match index.tag {
        None => made,
        Some(tag) => made.with_tag(&tag.tag()),
    }
}

/// Makes the call without an operand.
#[inline(always)]
fn make_alone<L: Lending, S: Stream<L>>(alone: Alone, stream: &mut S) -> Result
    ensures { Answers S.law result (S.standing stream.old) (tape_alone_call alone) (S.standing stream.new) }
{
    match alone {
        Alone::Null => stream.null(),
        Alone::TextEnd => stream.text_end(),
        Alone::BinaryEnd => stream.binary_end(),
        Alone::SeqEnd => stream.seq_end(),
        Alone::MapEnd => stream.map_end(),
        Alone::ItemBegin => stream.seq_value_begin(),
        Alone::ItemEnd => stream.seq_value_end(),
        Alone::KeyBegin => stream.map_key_begin(),
        Alone::KeyEnd => stream.map_key_end(),
        Alone::ValueBegin => stream.map_value_begin(),
        Alone::ValueEnd => stream.map_value_end(),
    }
}

/// Makes the call of a whole number.
#[inline(always)]
fn make_int<L: Lending, S: Stream<L>>(number: Int, stream: &mut S) -> Result
    ensures { Answers S.law result (S.standing stream.old) (int_call number) (S.standing stream.new) }
{
    match number {
        Int::U8(number) => stream.u8(number),
        Int::U16(number) => stream.u16(number),
        Int::U32(number) => stream.u32(number),
        Int::U64(number) => stream.u64(number),
        Int::U128(number) => stream.u128(number),
        Int::I8(number) => stream.i8(number),
        Int::I16(number) => stream.i16(number),
        Int::I32(number) => stream.i32(number),
        Int::I64(number) => stream.i64(number),
        Int::I128(number) => stream.i128(number),
    }
}

/// Makes the begin with this size.
#[inline(always)]
fn make_opening<L: Lending, S: Stream<L>>(
    opening: Opening,
    size: Option<usize>,
    stream: &mut S,
) -> Result
    ensures { Answers S.law result (S.standing stream.old) (tape_opening_call opening size) (S.standing stream.new) }
{
    match opening {
        Opening::Text => stream.text_begin(size),
        Opening::Binary => stream.binary_begin(size),
        Opening::Seq => stream.seq_begin(size),
        Opening::Map => stream.map_begin(size),
    }
}

/// Makes the fragment of a text.
#[inline(always)]
fn make_text<'v, S: Stream<Lent<'v>>>(borrowed: bool, text: &'v str, stream: &mut S) -> Result
    ensures { Answers S.law result (S.standing stream.old)
        (call.TextFragment borrowed text.now) (S.standing stream.new) }
{
    if borrowed {
        return stream.text_fragment(text);
    }
    stream.text_fragment_computed(text)
}

/// Makes the fragment of a binary.
#[inline(always)]
fn make_binary<'v, S: Stream<Lent<'v>>>(borrowed: bool, bytes: &'v [u8], stream: &mut S) -> Result
    ensures { Answers S.law result (S.standing stream.old)
        (call.BinaryFragment borrowed bytes.now) (S.standing stream.new) }
{
    if borrowed {
        return stream.binary_fragment(bytes);
    }
    stream.binary_fragment_computed(bytes)
}

/// Makes the hint of this tag.
fn make_hint<L: Lending, S: Stream<L>>(tag: TagRead, stream: &mut S) -> Result
    ensures { Answers S.law result (S.standing stream.old) (call.TagHint (tag_read tag)) (S.standing stream.new) }
{
    stream.tag_hint(&tag.tag())
}

/// The label, where one is given.
#[inline(always)]
fn label_option(label: Option<LabelRead<'_>>) -> Option<Label<'_>>
    ensures { result ≡ option_map label_read label.entry }
{
    match label {
        None => None,
        Some(label) => Some(make_label(label)),
    }
}

/// The index, where one is given.
#[inline(always)]
fn index_option(index: Option<IndexRead>) -> Option<Index>
    ensures { option_map seen_index result ≡ option_map index_read index }
{
    match index {
        None => None,
        Some(index) => Some(make_index(index)),
    }
}

/// Makes the call with this name.
pub(crate) fn make_named<L: Lending, S: Stream<L>>(
    word: Named,
    name: NameRead<'_>,
    stream: &mut S,
) -> Result
    ensures { Answers S.law result (S.standing stream.old)
        (tape_named_call word (name_read name.entry)) (S.standing stream.new) }
{
    let tag = tag_option(name.tag);
    let label = label_option(name.label);
    let index = index_option(name.index);
    let (tag, label, index) = (tag.as_ref(), label.as_ref(), index.as_ref());
    match word {
        Named::Tag => stream.tag(tag, label, index),
        Named::EnumBegin => stream.enum_begin(tag, label, index),
        Named::EnumEnd => stream.enum_end(tag, label, index),
        Named::TaggedBegin => stream.tagged_begin(tag, label, index),
        Named::TaggedEnd => stream.tagged_end(tag, label, index),
        Named::RecordEnd => stream.record_end(tag, label, index),
        Named::TupleEnd => stream.tuple_end(tag, label, index),
        Named::RecordTupleEnd => stream.record_tuple_end(tag, label, index),
    }
}

/// Makes the begin of a container with this name.
fn make_begin<L: Lending, S: Stream<L>>(
    container: Container,
    name: NameRead<'_>,
    size: Option<usize>,
    stream: &mut S,
) -> Result
    ensures { Answers S.law result (S.standing stream.old)
        (call.Begin (tape_head_of container (name_read name.entry)) size) (S.standing stream.new) }
{
    let tag = tag_option(name.tag);
    let label = label_option(name.label);
    let index = index_option(name.index);
    let (tag, label, index) = (tag.as_ref(), label.as_ref(), index.as_ref());
    match container {
        Container::Record => stream.record_begin(tag, label, index, size),
        Container::Tuple => stream.tuple_begin(tag, label, index, size),
        Container::RecordTuple => stream.record_tuple_begin(tag, label, index, size),
    }
}

/// Makes the begin or the end of a field with this label.
pub(crate) fn make_field<L: Lending, S: Stream<L>>(
    side: Side,
    tag: Option<TagRead>,
    label: LabelRead<'_>,
    stream: &mut S,
) -> Result
    ensures { let slot = call.Field (option_map tag_read tag) (label_read label.entry) in
        Answers S.law result (S.standing stream.old) (tape_part_call side slot) (S.standing stream.new) }
{
    let tag = tag_option(tag);
    let label = make_label(label);
    match side {
        Side::Begin => stream.record_value_begin(tag.as_ref(), &label),
        Side::End => stream.record_value_end(tag.as_ref(), &label),
    }
}

/// Makes the begin or the end of a field with this index.
fn make_place<L: Lending, S: Stream<L>>(
    side: Side,
    tag: Option<TagRead>,
    index: IndexRead,
    stream: &mut S,
) -> Result
    ensures { let slot = call.Place (option_map tag_read tag) (index_read index) in
        Answers S.law result (S.standing stream.old) (tape_part_call side slot) (S.standing stream.new) }
{
    let tag = tag_option(tag);
    let index = make_index(index);
    match side {
        Side::Begin => stream.tuple_value_begin(tag.as_ref(), &index),
        Side::End => stream.tuple_value_end(tag.as_ref(), &index),
    }
}

/// Makes the begin or the end of a field with this label and this index.
pub(crate) fn make_field_place<L: Lending, S: Stream<L>>(
    side: Side,
    tag: Option<TagRead>,
    label: LabelRead<'_>,
    index: IndexRead,
    stream: &mut S,
) -> Result
    ensures { let slot = call.FieldPlace (option_map tag_read tag) (label_read label.entry) (index_read index) in
        Answers S.law result (S.standing stream.old) (tape_part_call side slot) (S.standing stream.new) }
{
    let tag = tag_option(tag);
    let label = make_label(label);
    let index = make_index(index);
    match side {
        Side::Begin => stream.record_tuple_value_begin(tag.as_ref(), &label, &index),
        Side::End => stream.record_tuple_value_end(tag.as_ref(), &label, &index),
    }
}

impl<'sval> CallRead<'sval> {
    /// Makes the call.
    #[inline(always)]
    pub(crate) fn make<S: Stream<Lent<'sval>>>(self, stream: &mut S) -> Result
        ensures { Answers S.law result (S.standing stream.old) (call_read self.entry) (S.standing stream.new) }
    {
        match self {
            CallRead::Alone(alone) => make_alone(alone, stream),
            CallRead::Bool(value) => stream.bool(value),
            CallRead::Int(number) => make_int(number, stream),
            CallRead::Opening(opening, size) => make_opening(opening, size, stream),
            CallRead::Text(borrowed, text) => make_text(borrowed, text, stream),
            CallRead::Binary(borrowed, bytes) => make_binary(borrowed, bytes, stream),
            CallRead::TagHint(tag) => make_hint(tag, stream),
            CallRead::Named(word, name) => make_named(word, name, stream),
            CallRead::Begin(container, name, size) => make_begin(container, name, size, stream),
            CallRead::Field(side, tag, label) => make_field(side, tag, label, stream),
            CallRead::Place(side, tag, index) => make_place(side, tag, index, stream),
            CallRead::FieldPlace(side, tag, label, index) => {
                make_field_place(side, tag, label, index, stream)
            }
        }
    }
}
