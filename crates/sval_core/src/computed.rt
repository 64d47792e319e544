//! A stream that may keep nothing.

ghost use Rattle.std.specs.Prelude.{◌≡◌, ℕ, List};
ghost use Rattle.std.specs.Borrow.{Bor};
ghost use Rattle.sval_label.specs.declared.call.AnyCall.TheVariants as made;
ghost use Rattle.sval_label.specs.Made.{call_of, lent_call};
ghost use Rattle.sval_core.specs.Law.{Answers, Through, through, law_of_computed, computed};

use crate::stream::Stream;
use std::marker::PhantomData;
use sval_label::{AnyCall, Call, Lending, Lent, Result};

/// A stream whose borrowed fragments reach the inner one as computed.
///
/// So it takes what is lent for any lifetime, whatever the inner stream may keep.
#[derive(Drop)]
pub struct Computed<'a, L, S> {
    stream: &'a mut S,
    lends: PhantomData<L>,
}

impl<'a, L, S> Computed<'a, L, S> {
    /// A stream over this one.
    pub fn new(stream: &'a mut S) -> Self
        ensures { result.stream ≡ stream.entry }
    {
        Computed {
            stream,
            lends: PhantomData,
        }
    }
}

impl<'a, 'b, L: Lending, S: Stream<L>> Stream<Lent<'b>> for Computed<'a, L, S> {
    ghost View = { Through S.View };

    ghost law = { law_of_computed S.law };

    ghost standing = { λ s. through (S.standing s.stream.now) s.stream.ghost_name };

    fn take(&mut self, call: Call<'b, '_>) -> Result
        ensures { Answers (law_of_computed S.law) result
            (through (S.standing self.old.stream.now) self.old.stream.ghost_name) (lent_call call.entry)
            (through (S.standing self.new.stream.now) self.new.stream.ghost_name) }
    {
        match call {
            AnyCall::TextFragment(fragment) => self.stream.text_fragment_computed(fragment),
            AnyCall::BinaryFragment(fragment) => self.stream.binary_fragment_computed(fragment),
            call => self.stream.take(as_it_is(call)),
        }
    }
}

/// A call that isn't a borrowed fragment, for any type of borrowed texts and bytes.
fn as_it_is<'b, 'c, T, B>(call: Call<'b, 'c>) -> AnyCall<'c, T, B>
    requires no_text { (fragment : Bor (List ℕ)) → ¬ (call ≡ made.TextFragment fragment) }
    requires no_bytes { (fragment : Bor (List ℕ)) → ¬ (call ≡ made.BinaryFragment fragment) }
    ensures { (text : T → List ℕ) (bytes : B → List ℕ)
        → call_of text bytes result ≡ computed (lent_call call.entry) }
{
    match call {
        AnyCall::Null => AnyCall::Null,
        AnyCall::Bool(value) => AnyCall::Bool(value),
        AnyCall::U8(value) => AnyCall::U8(value),
        AnyCall::U16(value) => AnyCall::U16(value),
        AnyCall::U32(value) => AnyCall::U32(value),
        AnyCall::U64(value) => AnyCall::U64(value),
        AnyCall::U128(value) => AnyCall::U128(value),
        AnyCall::I8(value) => AnyCall::I8(value),
        AnyCall::I16(value) => AnyCall::I16(value),
        AnyCall::I32(value) => AnyCall::I32(value),
        AnyCall::I64(value) => AnyCall::I64(value),
        AnyCall::I128(value) => AnyCall::I128(value),
        AnyCall::TextBegin(size) => AnyCall::TextBegin(size),
        AnyCall::TextFragment(_) => unreachable!("a borrowed text is told as computed"),
        AnyCall::TextFragmentComputed(fragment) => AnyCall::TextFragmentComputed(fragment),
        AnyCall::TextEnd => AnyCall::TextEnd,
        AnyCall::BinaryBegin(size) => AnyCall::BinaryBegin(size),
        AnyCall::BinaryFragment(_) => unreachable!("borrowed bytes are told as computed"),
        AnyCall::BinaryFragmentComputed(fragment) => AnyCall::BinaryFragmentComputed(fragment),
        AnyCall::BinaryEnd => AnyCall::BinaryEnd,
        AnyCall::MapBegin(size) => AnyCall::MapBegin(size),
        AnyCall::MapKeyBegin => AnyCall::MapKeyBegin,
        AnyCall::MapKeyEnd => AnyCall::MapKeyEnd,
        AnyCall::MapValueBegin => AnyCall::MapValueBegin,
        AnyCall::MapValueEnd => AnyCall::MapValueEnd,
        AnyCall::MapEnd => AnyCall::MapEnd,
        AnyCall::SeqBegin(size) => AnyCall::SeqBegin(size),
        AnyCall::SeqValueBegin => AnyCall::SeqValueBegin,
        AnyCall::SeqValueEnd => AnyCall::SeqValueEnd,
        AnyCall::SeqEnd => AnyCall::SeqEnd,
        AnyCall::EnumBegin(name) => AnyCall::EnumBegin(name),
        AnyCall::EnumEnd(name) => AnyCall::EnumEnd(name),
        AnyCall::TaggedBegin(name) => AnyCall::TaggedBegin(name),
        AnyCall::TaggedEnd(name) => AnyCall::TaggedEnd(name),
        AnyCall::Tag(name) => AnyCall::Tag(name),
        AnyCall::TagHint(tag) => AnyCall::TagHint(tag),
        AnyCall::RecordBegin(name, size) => AnyCall::RecordBegin(name, size),
        AnyCall::RecordValueBegin(tag, label) => AnyCall::RecordValueBegin(tag, label),
        AnyCall::RecordValueEnd(tag, label) => AnyCall::RecordValueEnd(tag, label),
        AnyCall::RecordEnd(name) => AnyCall::RecordEnd(name),
        AnyCall::TupleBegin(name, size) => AnyCall::TupleBegin(name, size),
        AnyCall::TupleValueBegin(tag, index) => AnyCall::TupleValueBegin(tag, index),
        AnyCall::TupleValueEnd(tag, index) => AnyCall::TupleValueEnd(tag, index),
        AnyCall::TupleEnd(name) => AnyCall::TupleEnd(name),
        AnyCall::RecordTupleBegin(name, size) => AnyCall::RecordTupleBegin(name, size),
        AnyCall::RecordTupleValueBegin(tag, label, index) => AnyCall::RecordTupleValueBegin(
            tag, label, index,
        ),
        AnyCall::RecordTupleValueEnd(tag, label, index) => AnyCall::RecordTupleValueEnd(
            tag, label, index,
        ),
        AnyCall::RecordTupleEnd(name) => AnyCall::RecordTupleEnd(name),
    }
}
