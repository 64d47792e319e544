//! The calls that lines make.

ghost use Rattle.std.specs.Prelude.{◌≡◌, ℕ, List, option_map, drop};
ghost use Rattle.sval_label.specs.Made.{call_of};
ghost use Rattle.sval_label.specs.SeenIndex.{seen_index};
ghost use Rattle.sval_label.specs.SeenName.{seen_name};
ghost use Rattle.sval_label.specs.Grouped.{seen_slot};
ghost use Rattle.sval_label.specs.Calls as call;
ghost use Rattle.sval_core.specs.Law.{Answers};
ghost use Rattle.sval_script.specs.Tags.{tag_of, tag_text};
ghost use Rattle.sval_script.specs.FieldValues.{index_of, made_label, index_from, label_from};
ghost use Rattle.sval_script.specs.NextFields.{name_from};
ghost use Rattle.sval_script.specs.Words.{alone_call, opening_call, is_kept, word_call, head_of, part_call};
ghost use Rattle.sval_script.specs.LineCalls.{own_count, next_len, next_call, HoldsNext};

use crate::field::{IndexField, IndexRead, LabelField, Sign};
use crate::line::Line;
use crate::store::{Left, NameLeft};
use crate::tag::TagField;
use crate::word::{Alone, Lifetime, Named, NamedOpening, Opening, Side};
use sval_core::{Lent, Result, Stream};
use sval_label::{AnyCall, GroupedCall, Index, Label, Lending, Name, Slot, Tag};

impl Alone {
    /// The call.
    fn call<'c, T, B>(self) -> AnyCall<'c, T, B>
        ensures { (text : T → List ℕ) (bytes : B → List ℕ) → call_of text bytes result ≡ alone_call self }
    {
        match self {
            Alone::Null => AnyCall::Null,
            Alone::TextEnd => AnyCall::TextEnd,
            Alone::BinaryEnd => AnyCall::BinaryEnd,
            Alone::MapKeyBegin => AnyCall::MapKeyBegin,
            Alone::MapKeyEnd => AnyCall::MapKeyEnd,
            Alone::MapValueBegin => AnyCall::MapValueBegin,
            Alone::MapValueEnd => AnyCall::MapValueEnd,
            Alone::MapEnd => AnyCall::MapEnd,
            Alone::SeqValueBegin => AnyCall::SeqValueBegin,
            Alone::SeqValueEnd => AnyCall::SeqValueEnd,
            Alone::SeqEnd => AnyCall::SeqEnd,
        }
    }
}

impl Opening {
    /// The call with this size.
    fn call<'c, T, B>(self, size: Option<usize>) -> AnyCall<'c, T, B>
        ensures { (text : T → List ℕ) (bytes : B → List ℕ)
            → call_of text bytes result ≡ opening_call self size }
    {
        match self {
            Opening::TextBegin => AnyCall::TextBegin(size),
            Opening::BinaryBegin => AnyCall::BinaryBegin(size),
            Opening::MapBegin => AnyCall::MapBegin(size),
            Opening::SeqBegin => AnyCall::SeqBegin(size),
        }
    }
}

impl Named {
    /// The call with this name.
    fn call<'c, T, B>(self, name: Name<'c>) -> AnyCall<'c, T, B>
        ensures { (text : T → List ℕ) (bytes : B → List ℕ)
            → call_of text bytes result ≡ word_call self (seen_name name.entry) }
    {
        match self {
            Named::EnumBegin => AnyCall::EnumBegin(name),
            Named::EnumEnd => AnyCall::EnumEnd(name),
            Named::TaggedBegin => AnyCall::TaggedBegin(name),
            Named::TaggedEnd => AnyCall::TaggedEnd(name),
            Named::Tag => AnyCall::Tag(name),
            Named::RecordEnd => AnyCall::RecordEnd(name),
            Named::TupleEnd => AnyCall::TupleEnd(name),
            Named::RecordTupleEnd => AnyCall::RecordTupleEnd(name),
        }
    }
}

impl NamedOpening {
    /// The call with this name and size.
    fn call<'c, T, B>(self, name: Name<'c>, size: Option<usize>) -> AnyCall<'c, T, B>
        ensures { (text : T → List ℕ) (bytes : B → List ℕ)
            → call_of text bytes result ≡ call.Begin (head_of self (seen_name name.entry)) size }
    {
        match self {
            NamedOpening::RecordBegin => AnyCall::RecordBegin(name, size),
            NamedOpening::TupleBegin => AnyCall::TupleBegin(name, size),
            NamedOpening::RecordTupleBegin => AnyCall::RecordTupleBegin(name, size),
        }
    }
}

impl Side {
    /// The call at this place.
    fn call<'c, T, B>(self, slot: Slot<'c>) -> AnyCall<'c, T, B>
        ensures { (text : T → List ℕ) (bytes : B → List ℕ)
            → call_of text bytes result ≡ part_call self (seen_slot slot.entry) }
    {
        match self {
            Side::Begin => GroupedCall::PartBegin(slot).call(),
            Side::End => GroupedCall::PartEnd(slot).call(),
        }
    }
}

/// The label with this tag and text.
fn label(tag: TagField, text: &str) -> Label<'_>
    ensures { result ≡ made_label tag text.now }
{
    let label = Label::new_computed(text);
    match tag.tag() {
        None => label,
        Some(tag) => label.with_tag(&tag),
    }
}

impl IndexRead {
    /// The index.
    fn index(self) -> Index
        ensures { seen_index result ≡ index_of self }
    {
        let index = match self.sign {
            Sign::Natural => Index::new_u64(self.number),
            Sign::Signed => Index::new_i64(self.number.cast_signed()),
        };
        match self.tag.tag() {
            None => index,
            Some(tag) => index.with_tag(&tag),
        }
    }
}

impl LabelField {
    /// The label with this text, if there is one.
    fn label(self, text: &str) -> Option<Label<'_>>
        ensures { result ≡ label_from self text.now }
    {
        match self {
            LabelField::Absent => None,
            LabelField::Present(tag) => Some(label(tag, text)),
        }
    }
}

impl IndexField {
    /// The index with this number, if there is one.
    fn index(self, number: u64) -> Option<Index>
        ensures { option_map seen_index result ≡ index_from self number }
    {
        match self {
            IndexField::Absent => None,
            IndexField::Present(sign, tag) => Some(IndexRead { sign, tag, number }.index()),
        }
    }
}

/// Makes the call of this word.
fn make_alone<L: Lending, S: Stream<L>>(word: Alone, stream: &mut S) -> Result
    ensures { Answers S.law result (S.standing stream.old) (alone_call word) (S.standing stream.new) }
{
    stream.take(word.call())
}

/// Makes the begin with this size.
#[inline(always)]
fn make_opening<L: Lending, S: Stream<L>>(
    opening: Opening,
    size: Option<usize>,
    stream: &mut S,
) -> Result
    ensures { Answers S.law result (S.standing stream.old) (opening_call opening size) (S.standing stream.new) }
{
    stream.take(opening.call(size))
}

/// Makes the fragment of a text.
fn make_text<'v, S: Stream<Lent<'v>>>(life: Lifetime, text: &'v str, stream: &mut S) -> Result
    ensures { Answers S.law result (S.standing stream.old)
        (call.TextFragment (is_kept life) text.now) (S.standing stream.new) }
{
    match life {
        Lifetime::Borrowed => stream.text_fragment(text),
        Lifetime::Computed => stream.text_fragment_computed(text),
    }
}

/// Makes the fragment of a binary.
fn make_binary<'v, S: Stream<Lent<'v>>>(life: Lifetime, bytes: &'v [u8], stream: &mut S) -> Result
    ensures { Answers S.law result (S.standing stream.old)
        (call.BinaryFragment (is_kept life) bytes.now) (S.standing stream.new) }
{
    match life {
        Lifetime::Borrowed => stream.binary_fragment(bytes),
        Lifetime::Computed => stream.binary_fragment_computed(bytes),
    }
}

/// Makes the hint of this tag.
fn make_tag_hint<L: Lending, S: Stream<L>>(tag: TagField, stream: &mut S) -> Result
    ensures { Answers S.law result (S.standing stream.old)
        (call.TagHint (tag_text tag)) (S.standing stream.new) }
{
    stream.tag_hint(&Tag::new(tag.text()))
}

/// Makes the call with this name.
fn make_named<L: Lending, S: Stream<L>>(word: Named, name: NameLeft<'_>, stream: &mut S) -> Result
    ensures { Answers S.law result (S.standing stream.old)
        (word_call word (name_from name.entry.parts name.entry.text.now name.entry.number)) (S.standing stream.new) }
{
    let tag = name.parts.tag.tag();
    let label = name.parts.label.label(name.text);
    let index = name.parts.index.index(name.number);
    let name = Name {
        tag: tag.as_ref(),
        label: label.as_ref(),
        index: index.as_ref(),
    };
    stream.take(word.call(name))
}

/// Makes the begin of a container with this name.
#[inline(always)]
fn make_named_opening<L: Lending, S: Stream<L>>(
    word: NamedOpening,
    name: NameLeft<'_>,
    size: Option<usize>,
    stream: &mut S,
) -> Result
    ensures { Answers S.law result (S.standing stream.old)
        (call.Begin (head_of word (name_from name.entry.parts name.entry.text.now name.entry.number)) size)
        (S.standing stream.new) }
{
    let tag = name.parts.tag.tag();
    let label = name.parts.label.label(name.text);
    let index = name.parts.index.index(name.number);
    let name = Name {
        tag: tag.as_ref(),
        label: label.as_ref(),
        index: index.as_ref(),
    };
    stream.take(word.call(name, size))
}

/// Makes the begin or the end of a field with this label.
fn make_field<L: Lending, S: Stream<L>>(
    side: Side,
    tag: TagField,
    label_tag: TagField,
    text: &str,
    stream: &mut S,
) -> Result
    ensures { Answers S.law result (S.standing stream.old)
        (part_call side (call.Field (tag_of tag) (made_label label_tag text.now))) (S.standing stream.new) }
{
    let tag = tag.tag();
    let label = label(label_tag, text);
    stream.take(side.call(Slot::Field(tag.as_ref(), &label)))
}

/// Makes the begin or the end of a field with this index.
fn make_place<L: Lending, S: Stream<L>>(
    side: Side,
    tag: TagField,
    index: IndexRead,
    stream: &mut S,
) -> Result
    ensures { Answers S.law result (S.standing stream.old)
        (part_call side (call.Place (tag_of tag) (index_of index))) (S.standing stream.new) }
{
    let tag = tag.tag();
    let index = index.index();
    stream.take(side.call(Slot::Place(tag.as_ref(), &index)))
}

/// Makes the begin or the end of a field with this label and this index.
fn make_field_place<L: Lending, S: Stream<L>>(
    side: Side,
    tag: TagField,
    label_tag: TagField,
    text: &str,
    index: IndexRead,
    stream: &mut S,
) -> Result
    ensures { Answers S.law result (S.standing stream.old)
        (part_call side (call.FieldPlace (tag_of tag) (made_label label_tag text.now) (index_of index)))
        (S.standing stream.new) }
{
    let tag = tag.tag();
    let label = label(label_tag, text);
    let index = index.index();
    stream.take(side.call(Slot::FieldPlace(tag.as_ref(), &label, &index)))
}

impl Line {
    /// Makes the call of this line, and takes the bytes and numbers of the line from the front of what is left.
    #[inline(always)]
    pub(crate) fn make<'v, S: Stream<Lent<'v>>>(self, left: &mut Left<'v>, stream: &mut S) -> Result
        requires { HoldsNext left.old.bytes.now left.old.numbers.now self }
        ensures call { Answers S.law result (S.standing stream.old)
            (next_call left.old.bytes.now left.old.numbers.now self) (S.standing stream.new) }
        ensures bytes { left.new.bytes.now ≡ drop (next_len self left.old.numbers.now) left.old.bytes.now }
        ensures numbers { left.new.numbers.now ≡ drop (own_count self) left.old.numbers.now }
    {
        match self {
            Line::Alone(word) => make_alone(word, stream),
            Line::Bool(value) => stream.bool(value),
            Line::U8(number) => stream.u8(number),
            Line::U16(number) => stream.u16(number),
            Line::U32(number) => stream.u32(number),
            Line::U64 => stream.u64(left.number()),
            Line::U128 => stream.u128(left.wide()),
            Line::I8(number) => stream.i8(number),
            Line::I16(number) => stream.i16(number),
            Line::I32(number) => stream.i32(number),
            Line::I64 => stream.i64(left.number().cast_signed()),
            Line::I128 => stream.i128(left.wide().cast_signed()),
            Line::Opening(opening) => make_opening(opening, None, stream),
            Line::SizedOpening(opening) => make_opening(opening, left.size(), stream),
            Line::TextFragment(life, len) => make_text(life, left.text(len as usize), stream),
            Line::BinaryFragment(life, len) => make_binary(life, left.bytes(len as usize), stream),
            Line::TagHint(tag) => make_tag_hint(tag, stream),
            Line::Named(word, parts) => make_named(word, left.name(parts), stream),
            Line::NamedOpening(word, parts) => {
                make_named_opening(word, left.name(parts), None, stream)
            }
            Line::SizedNamedOpening(word, parts) => {
                let name = left.name(parts);
                make_named_opening(word, name, left.size(), stream)
            }
            Line::Field(side, tag, label, len) => {
                let text = left.text(len as usize);
                make_field(side, tag, label, text, stream)
            }
            Line::Place(side, part_tag, sign, tag) => {
                let number = left.number();
                make_place(side, part_tag, IndexRead { sign, tag, number }, stream)
            }
            Line::FieldPlace(side, part_tag, label, sign, tag) => {
                let own = left.numbers(2);
                let text = left.text(own[0] as usize);
                let number = own[1];
                let index = IndexRead { sign, tag, number };
                make_field_place(side, part_tag, label, text, index, stream)
            }
        }
    }
}
