//! What takes calls.

ghost use Rattle.std.specs.Prelude.{◌≡◌, true, false, pos};
ghost use Rattle.sval_label.specs.Made.{call_of};
ghost use Rattle.sval_label.specs.Calls as call;
ghost use Rattle.sval_label.specs.SeenTags.{seen_tag};
ghost use Rattle.sval_label.specs.SeenIndex.{seen_index};
ghost use Rattle.sval_label.specs.SeenName.{seen_option_tag, name_of};
ghost use Rattle.sval_core.specs.Law.{Law, Standing, Answers, Emits, as_computed};
ghost use Rattle.sval_core.specs.OneValue.{TakesAnyValue};
ghost use Rattle.sval_core.specs.Values.{makes, whole_text_calls, whole_key_calls};

use crate::computed::Computed;
use crate::value::Value;
use sval_label::{AnyCall, Index, Label, Lending, Lent, Name, Result, Tag};

/// What takes calls, one by one.
///
/// An implementation writes [`take`](Stream::take), and each named call passes the call of its name to it. So do
/// [`whole_text`](Stream::whole_text) and [`whole_text_key`](Stream::whole_text_key) with theirs, unless it has code of
/// its own for these. A call is refused only where the stream doesn't accept it after those that it has taken, or where
/// one of its counts rose: that of faults, or that of refusals for want of memory. A call that is taken leaves both
/// counts as they were.
///
/// # A stream of your own
///
/// It gives its law and its standing. One that adds up the `i64` numbers accepts all calls, and has no count that
/// rises.
///
/// ```antt
/// -- a number is added, and other calls change nothing
/// abbrev pub added : ℤ → Call → ℤ
/// added total (Int I64 n) = saturate_signed w64 (total +ℤ n)
/// added total _ = total
///
/// abbrev pub total_law : Law ℤ
/// total_law = record { accepts = λ _ _. ⊤; after = added; stopped = λ _ _ _. ⊤ }
/// ```
///
/// ```
/// impl<L: Lending> Stream<L> for Total {
///     ghost View = { ℤ };
///
///     ghost law = { total_law };
///
///     ghost standing = { λ total. total_standing total.total };
///
///     fn take(&mut self, call: AnyCall<'_, L::Text, L::Bytes>) -> Result
///         ensures { Answers total_law result
///             (total_standing self.old.total) (call_of L.text L.bytes call.entry) (total_standing self.new.total) }
///     {
///         if let GroupedCall::Int(Int::I64(number)) = call.grouped() {
///             self.total = self.total.saturating_add(number);
///         }
///         Ok(())
///     }
/// }
/// ```
///
/// After a value the total is then the fold of `added` over the value's calls (`streams_folds` in
/// `proofs/ValueProofs.antt`). The crate `readings` has this stream, proved.
pub trait Stream<L: Lending> {
    /// What a stream has taken, as plain data.
    ghost View: { Type 0 };

    /// Which calls it accepts, what an accepted call makes of its view, and what a refused one may leave.
    ghost law: { Law View };

    /// Its view and its two counts.
    ghost standing: { Self → Standing View };

    /// Takes a call, or refuses it.
    ///
    /// An implementation writes this clause out, at its own law and standing: the checker can't copy it from here.
    fn take(&mut self, call: AnyCall<'_, L::Text, L::Bytes>) -> Result
        ensures { Answers law result (standing self.old) (call_of L.text L.bytes call.entry) (standing self.new) };

    /// No value.
    final fn null(&mut self) -> Result
        ensures { Answers law result (standing self.old) call.Null (standing self.new) }
    {
        self.take(AnyCall::Null)
    }

    /// A truth value.
    final fn bool(&mut self, value: bool) -> Result
        ensures { Answers law result (standing self.old) (call.Truth value) (standing self.new) }
    {
        self.take(AnyCall::Bool(value))
    }

    /// A whole number of 8 bits.
    final fn u8(&mut self, value: u8) -> Result
        ensures { Answers law result (standing self.old)
            (call.Int call.U8 (pos value)) (standing self.new) }
    {
        self.take(AnyCall::U8(value))
    }

    /// A whole number of 16 bits.
    final fn u16(&mut self, value: u16) -> Result
        ensures { Answers law result (standing self.old)
            (call.Int call.U16 (pos value)) (standing self.new) }
    {
        self.take(AnyCall::U16(value))
    }

    /// A whole number of 32 bits.
    final fn u32(&mut self, value: u32) -> Result
        ensures { Answers law result (standing self.old)
            (call.Int call.U32 (pos value)) (standing self.new) }
    {
        self.take(AnyCall::U32(value))
    }

    /// A whole number of 64 bits.
    final fn u64(&mut self, value: u64) -> Result
        ensures { Answers law result (standing self.old)
            (call.Int call.U64 (pos value)) (standing self.new) }
    {
        self.take(AnyCall::U64(value))
    }

    /// A whole number of 128 bits.
    final fn u128(&mut self, value: u128) -> Result
        ensures { Answers law result (standing self.old)
            (call.Int call.U128 (pos value)) (standing self.new) }
    {
        self.take(AnyCall::U128(value))
    }

    /// A whole number of 8 bits with its sign.
    final fn i8(&mut self, value: i8) -> Result
        ensures { Answers law result (standing self.old)
            (call.Int call.I8 value) (standing self.new) }
    {
        self.take(AnyCall::I8(value))
    }

    /// A whole number of 16 bits with its sign.
    final fn i16(&mut self, value: i16) -> Result
        ensures { Answers law result (standing self.old)
            (call.Int call.I16 value) (standing self.new) }
    {
        self.take(AnyCall::I16(value))
    }

    /// A whole number of 32 bits with its sign.
    final fn i32(&mut self, value: i32) -> Result
        ensures { Answers law result (standing self.old)
            (call.Int call.I32 value) (standing self.new) }
    {
        self.take(AnyCall::I32(value))
    }

    /// A whole number of 64 bits with its sign.
    final fn i64(&mut self, value: i64) -> Result
        ensures { Answers law result (standing self.old)
            (call.Int call.I64 value) (standing self.new) }
    {
        self.take(AnyCall::I64(value))
    }

    /// A whole number of 128 bits with its sign.
    final fn i128(&mut self, value: i128) -> Result
        ensures { Answers law result (standing self.old)
            (call.Int call.I128 value) (standing self.new) }
    {
        self.take(AnyCall::I128(value))
    }

    /// A text begins, of `size` bytes where that is given.
    final fn text_begin(&mut self, size: Option<usize>) -> Result
        ensures { Answers law result (standing self.old) (call.TextBegin size) (standing self.new) }
    {
        self.take(AnyCall::TextBegin(size))
    }

    /// A part of a text, which this stream may keep.
    final fn text_fragment(&mut self, fragment: L::Text) -> Result
        ensures { Answers law result (standing self.old)
            (call.TextFragment true (L.text fragment)) (standing self.new) }
    {
        self.take(AnyCall::TextFragment(fragment))
    }

    /// A part of a text, which lives for the call alone.
    final fn text_fragment_computed(&mut self, fragment: &str) -> Result
        ensures { Answers law result (standing self.old)
            (call.TextFragment false fragment.now) (standing self.new) }
    {
        self.take(AnyCall::TextFragmentComputed(fragment))
    }

    /// A text ends.
    final fn text_end(&mut self) -> Result
        ensures { Answers law result (standing self.old) call.TextEnd (standing self.new) }
    {
        self.take(AnyCall::TextEnd)
    }

    /// A whole text, which this stream may keep: the calls [`text_begin`](Stream::text_begin) with this size,
    /// [`text_fragment`](Stream::text_fragment) and [`text_end`](Stream::text_end), in one. `size` is the number of the
    /// text's bytes. It may be left out, as by what is read from JSON, where no size comes before a text. Nothing
    /// compares it with the text here. For a text that doesn't live long enough to be kept there are the three calls.
    ///
    /// An implementation may write it anew, where it does less for the three together. One that passes calls on passes
    /// a whole text on as one call only where it does.
    ///
    /// ```
    /// stream.whole_text("a text", Some(6))?;
    /// ```
    fn whole_text(&mut self, text: L::Text, size: Option<usize>) -> Result
        ensures { Emits law result (standing self.old)
            (makes (whole_text_calls size (L.text text))) (standing self.new) }
    {
        self.take(AnyCall::TextBegin(size))?;
        self.take(AnyCall::TextFragment(text))?;
        self.take(AnyCall::TextEnd)
    }

    /// A key of a map that is a whole text: [`map_key_begin`](Stream::map_key_begin), the three calls of
    /// [`whole_text`](Stream::whole_text), and [`map_key_end`](Stream::map_key_end), in one.
    ///
    /// An implementation may write it anew, where it does less for the five together.
    fn whole_text_key(&mut self, text: L::Text, size: Option<usize>) -> Result
        ensures { Emits law result (standing self.old)
            (makes (whole_key_calls size (L.text text))) (standing self.new) }
    {
        self.take(AnyCall::MapKeyBegin)?;
        self.take(AnyCall::TextBegin(size))?;
        self.take(AnyCall::TextFragment(text))?;
        self.take(AnyCall::TextEnd)?;
        self.take(AnyCall::MapKeyEnd)
    }

    /// Whether this stream only asks if a value is whole. Then a value that is may be [skipped](Stream::skip_value).
    ///
    /// A value whose parts may be of any type asks this first, so that its parts are asked for no other stream.
    fn asks_if_whole(&self) -> bool {
        false
    }

    /// Takes a whole value unseen, if this stream asks no more of a value than that it is whole. `false` leaves it
    /// unchanged.
    ///
    /// A value whose calls are known to be one whole value calls this before it makes them, and on `true` it is done.
    fn skip_value(&mut self) -> bool
        ensures skipped { result ≡ true → TakesAnyValue law (standing self.old) (standing self.new) }
        ensures left { result ≡ false → standing self.new ≡ standing self.old }
    {
        false
    }

    /// A binary begins, of `size` bytes where that is given.
    final fn binary_begin(&mut self, size: Option<usize>) -> Result
        ensures { Answers law result (standing self.old)
            (call.BinaryBegin size) (standing self.new) }
    {
        self.take(AnyCall::BinaryBegin(size))
    }

    /// A part of a binary, which this stream may keep.
    final fn binary_fragment(&mut self, fragment: L::Bytes) -> Result
        ensures { Answers law result (standing self.old)
            (call.BinaryFragment true (L.bytes fragment)) (standing self.new) }
    {
        self.take(AnyCall::BinaryFragment(fragment))
    }

    /// A part of a binary, which lives for the call alone.
    final fn binary_fragment_computed(&mut self, fragment: &[u8]) -> Result
        ensures { Answers law result (standing self.old)
            (call.BinaryFragment false fragment.now) (standing self.new) }
    {
        self.take(AnyCall::BinaryFragmentComputed(fragment))
    }

    /// A binary ends.
    final fn binary_end(&mut self) -> Result
        ensures { Answers law result (standing self.old) call.BinaryEnd (standing self.new) }
    {
        self.take(AnyCall::BinaryEnd)
    }

    /// A map begins, of `size` entries where that is given.
    final fn map_begin(&mut self, size: Option<usize>) -> Result
        ensures { Answers law result (standing self.old)
            (call.Begin call.Map size) (standing self.new) }
    {
        self.take(AnyCall::MapBegin(size))
    }

    /// A key of a map begins.
    final fn map_key_begin(&mut self) -> Result
        ensures { Answers law result (standing self.old)
            (call.PartBegin call.Key) (standing self.new) }
    {
        self.take(AnyCall::MapKeyBegin)
    }

    /// A key of a map ends.
    final fn map_key_end(&mut self) -> Result
        ensures { Answers law result (standing self.old)
            (call.PartEnd call.Key) (standing self.new) }
    {
        self.take(AnyCall::MapKeyEnd)
    }

    /// A value of a map begins.
    final fn map_value_begin(&mut self) -> Result
        ensures { Answers law result (standing self.old)
            (call.PartBegin call.Value) (standing self.new) }
    {
        self.take(AnyCall::MapValueBegin)
    }

    /// A value of a map ends.
    final fn map_value_end(&mut self) -> Result
        ensures { Answers law result (standing self.old)
            (call.PartEnd call.Value) (standing self.new) }
    {
        self.take(AnyCall::MapValueEnd)
    }

    /// A map ends.
    final fn map_end(&mut self) -> Result
        ensures { Answers law result (standing self.old) (call.End call.Map) (standing self.new) }
    {
        self.take(AnyCall::MapEnd)
    }

    /// A sequence begins, of `size` items where that is given.
    final fn seq_begin(&mut self, size: Option<usize>) -> Result
        ensures { Answers law result (standing self.old)
            (call.Begin call.Seq size) (standing self.new) }
    {
        self.take(AnyCall::SeqBegin(size))
    }

    /// An item of a sequence begins.
    final fn seq_value_begin(&mut self) -> Result
        ensures { Answers law result (standing self.old)
            (call.PartBegin call.Item) (standing self.new) }
    {
        self.take(AnyCall::SeqValueBegin)
    }

    /// An item of a sequence ends.
    final fn seq_value_end(&mut self) -> Result
        ensures { Answers law result (standing self.old)
            (call.PartEnd call.Item) (standing self.new) }
    {
        self.take(AnyCall::SeqValueEnd)
    }

    /// A sequence ends.
    final fn seq_end(&mut self) -> Result
        ensures { Answers law result (standing self.old) (call.End call.Seq) (standing self.new) }
    {
        self.take(AnyCall::SeqEnd)
    }

    /// An enum begins.
    final fn enum_begin(
        &mut self,
        tag: Option<&Tag>,
        label: Option<&Label>,
        index: Option<&Index>,
    ) -> Result
        ensures { Answers law result (standing self.old)
            (call.EnumBegin (name_of tag.entry label.entry index.entry)) (standing self.new) }
    {
        self.take(AnyCall::EnumBegin(Name { tag, label, index }))
    }

    /// An enum ends.
    final fn enum_end(
        &mut self,
        tag: Option<&Tag>,
        label: Option<&Label>,
        index: Option<&Index>,
    ) -> Result
        ensures { Answers law result (standing self.old)
            (call.EnumEnd (name_of tag.entry label.entry index.entry)) (standing self.new) }
    {
        self.take(AnyCall::EnumEnd(Name { tag, label, index }))
    }

    /// A value with a name of its own begins.
    final fn tagged_begin(
        &mut self,
        tag: Option<&Tag>,
        label: Option<&Label>,
        index: Option<&Index>,
    ) -> Result
        ensures { Answers law result (standing self.old)
            (call.TaggedBegin (name_of tag.entry label.entry index.entry)) (standing self.new) }
    {
        self.take(AnyCall::TaggedBegin(Name { tag, label, index }))
    }

    /// A value with a name of its own ends.
    final fn tagged_end(
        &mut self,
        tag: Option<&Tag>,
        label: Option<&Label>,
        index: Option<&Index>,
    ) -> Result
        ensures { Answers law result (standing self.old)
            (call.TaggedEnd (name_of tag.entry label.entry index.entry)) (standing self.new) }
    {
        self.take(AnyCall::TaggedEnd(Name { tag, label, index }))
    }

    /// A name that is a value.
    final fn tag(
        &mut self,
        tag: Option<&Tag>,
        label: Option<&Label>,
        index: Option<&Index>,
    ) -> Result
        ensures { Answers law result (standing self.old)
            (call.Standalone (name_of tag.entry label.entry index.entry)) (standing self.new) }
    {
        self.take(AnyCall::Tag(Name { tag, label, index }))
    }

    /// A hint of what the value around it is for.
    final fn tag_hint(&mut self, tag: &Tag) -> Result
        ensures { Answers law result (standing self.old)
            (call.TagHint (seen_tag tag.now)) (standing self.new) }
    {
        self.take(AnyCall::TagHint(tag))
    }

    /// A record begins, of `size` fields where that is given.
    final fn record_begin(
        &mut self,
        tag: Option<&Tag>,
        label: Option<&Label>,
        index: Option<&Index>,
        size: Option<usize>,
    ) -> Result
        ensures { Answers law result (standing self.old)
            (call.Begin (call.Record (name_of tag.entry label.entry index.entry)) size) (standing self.new) }
    {
        self.take(AnyCall::RecordBegin(Name { tag, label, index }, size))
    }

    /// A field of a record begins.
    final fn record_value_begin(&mut self, tag: Option<&Tag>, label: &Label) -> Result
        ensures { Answers law result (standing self.old)
            (call.PartBegin (call.Field (seen_option_tag tag.entry) label.now)) (standing self.new) }
    {
        self.take(AnyCall::RecordValueBegin(tag, label))
    }

    /// A field of a record ends.
    final fn record_value_end(&mut self, tag: Option<&Tag>, label: &Label) -> Result
        ensures { Answers law result (standing self.old)
            (call.PartEnd (call.Field (seen_option_tag tag.entry) label.now)) (standing self.new) }
    {
        self.take(AnyCall::RecordValueEnd(tag, label))
    }

    /// A record ends.
    final fn record_end(
        &mut self,
        tag: Option<&Tag>,
        label: Option<&Label>,
        index: Option<&Index>,
    ) -> Result
        ensures { Answers law result (standing self.old)
            (call.End (call.Record (name_of tag.entry label.entry index.entry))) (standing self.new) }
    {
        self.take(AnyCall::RecordEnd(Name { tag, label, index }))
    }

    /// A tuple begins, of `size` fields where that is given.
    final fn tuple_begin(
        &mut self,
        tag: Option<&Tag>,
        label: Option<&Label>,
        index: Option<&Index>,
        size: Option<usize>,
    ) -> Result
        ensures { Answers law result (standing self.old)
            (call.Begin (call.Tuple (name_of tag.entry label.entry index.entry)) size) (standing self.new) }
    {
        self.take(AnyCall::TupleBegin(Name { tag, label, index }, size))
    }

    /// A field of a tuple begins.
    final fn tuple_value_begin(&mut self, tag: Option<&Tag>, index: &Index) -> Result
        ensures { Answers law result (standing self.old)
            (call.PartBegin (call.Place (seen_option_tag tag.entry) (seen_index index.now))) (standing self.new) }
    {
        self.take(AnyCall::TupleValueBegin(tag, index))
    }

    /// A field of a tuple ends.
    final fn tuple_value_end(&mut self, tag: Option<&Tag>, index: &Index) -> Result
        ensures { Answers law result (standing self.old)
            (call.PartEnd (call.Place (seen_option_tag tag.entry) (seen_index index.now))) (standing self.new) }
    {
        self.take(AnyCall::TupleValueEnd(tag, index))
    }

    /// A tuple ends.
    final fn tuple_end(
        &mut self,
        tag: Option<&Tag>,
        label: Option<&Label>,
        index: Option<&Index>,
    ) -> Result
        ensures { Answers law result (standing self.old)
            (call.End (call.Tuple (name_of tag.entry label.entry index.entry))) (standing self.new) }
    {
        self.take(AnyCall::TupleEnd(Name { tag, label, index }))
    }

    /// A record that is a tuple too begins, of `size` fields where that is given.
    final fn record_tuple_begin(
        &mut self,
        tag: Option<&Tag>,
        label: Option<&Label>,
        index: Option<&Index>,
        size: Option<usize>,
    ) -> Result
        ensures { Answers law result (standing self.old)
            (call.Begin (call.RecordTuple (name_of tag.entry label.entry index.entry)) size) (standing self.new) }
    {
        self.take(AnyCall::RecordTupleBegin(Name { tag, label, index }, size))
    }

    /// A field of a record that is a tuple too begins.
    final fn record_tuple_value_begin(
        &mut self,
        tag: Option<&Tag>,
        label: &Label,
        index: &Index,
    ) -> Result
        ensures { Answers law result (standing self.old)
            (call.PartBegin (call.FieldPlace (seen_option_tag tag.entry) label.now (seen_index index.now)))
            (standing self.new) }
    {
        self.take(AnyCall::RecordTupleValueBegin(tag, label, index))
    }

    /// A field of a record that is a tuple too ends.
    final fn record_tuple_value_end(
        &mut self,
        tag: Option<&Tag>,
        label: &Label,
        index: &Index,
    ) -> Result
        ensures { Answers law result (standing self.old)
            (call.PartEnd (call.FieldPlace (seen_option_tag tag.entry) label.now (seen_index index.now)))
            (standing self.new) }
    {
        self.take(AnyCall::RecordTupleValueEnd(tag, label, index))
    }

    /// A record that is a tuple too ends.
    final fn record_tuple_end(
        &mut self,
        tag: Option<&Tag>,
        label: Option<&Label>,
        index: Option<&Index>,
    ) -> Result
        ensures { Answers law result (standing self.old)
            (call.End (call.RecordTuple (name_of tag.entry label.entry index.entry))) (standing self.new) }
    {
        self.take(AnyCall::RecordTupleEnd(Name { tag, label, index }))
    }

    /// Streams a value into this stream.
    final fn value<'v, V: Value<'v, L>>(&mut self, v: &'v V) -> Result
        ensures { Emits law result (standing self.old) (V.emission v.now) (standing self.new) }
    {
        v.stream(self)
    }

    /// Streams a value into this stream, which may keep nothing of it.
    final fn value_computed<'v, V: Value<'v, Lent<'v>>>(&mut self, v: &'v V) -> Result
    where
        Self: Sized,
        ensures { Emits law result (standing self.old) (as_computed (V.emission v.now)) (standing self.new) }
    {
        let mut computed = Computed::new(self);
        match v.stream(&mut computed) {
            Ok(()) => Ok(()),
            Err(error) => Err(error),
        }
    }
}
