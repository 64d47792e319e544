//! The fields of a line.

ghost use Rattle.std.specs.Prelude.{◌≡◌, None, IfOk, IfSome, MatchOption, get_or, ◌∷◌, []};
ghost use Rattle.std.specs.Bool.{MatchBool};
ghost use Rattle.sval_label.specs.Calls as call;
ghost use Rattle.sval_label.specs.Grouped.{int_number, int_type};
ghost use Rattle.sval_script.specs.Lines as script;
ghost use Rattle.sval_script.specs.Tags.{tag_text, tag_of};
ghost use Rattle.sval_script.specs.Words.{type_of};
ghost use Rattle.sval_script.specs.Fields.{line_ahead};
ghost use Rattle.sval_script.specs.FieldValues.{index_of, index_field_of};
ghost use Rattle.sval_script.specs.NextFields.{NoField, with_field, HasNoFieldsLeft, call_before};
ghost use Rattle.sval_script.specs.NextFields.{DecodesNext, LeavesNext};
ghost use Rattle.sval_script.specs.NextFields.{ReadsWord, ReadsNext, ReadsAs, NoNext};
ghost use Rattle.sval_script.specs.NextFields.{StoresNextText, StoresNextBytes, StoresNextLabel, StoresNextLabelField, ReadsName};
ghost use Rattle.sval_script.specs.NameNumbers.{label_count, name_count};

use crate::bytes::Bytes;
use crate::field::{
    IndexField, IndexRead, LabelField, LabelRead, LineError, index, index_or_dash, kept_len, size,
    store_bytes, store_label, store_label_or_dash, store_text, text_len, truth,
};
use crate::number::number;
use crate::short::{field_end, is_end_far};
use crate::tag::TagField;
use crate::word::{NumberType, Word};
use std::marker::Model;
use sval_label::Int;

/// What is left of a script while the fields of its first line are read one after another.
#[derive(Drop)]
pub(crate) struct Fields<'a> {
    /// The bytes behind the fields that were read.
    rest: &'a [u8],
    /// Whether the line feed of the line was read.
    is_over: bool,
}

/// A name that was read. The text of its label is in a store.
#[derive(Clone, Copy)]
pub(crate) struct NameRead {
    pub(crate) parts: NameFields,
    /// How many bytes the label's text has.
    pub(crate) len: u32,
    /// The index's number.
    pub(crate) number: u64,
}

/// What the fields of a name say, but for the label's text and the index's number.
#[derive(Clone, Copy)]
pub(crate) struct NameFields {
    pub(crate) tag: TagField,
    pub(crate) label: LabelField,
    pub(crate) index: IndexField,
}

impl NameFields {
    /// How many numbers say the length of the label's text and the index's number.
    pub(crate) fn count(self) -> usize
        ensures { result ≡ name_count self }
    {
        self.label.count() + self.index.count()
    }

    /// The index's number, if there is an index, where these are the name's numbers.
    #[inline(always)]
    pub(crate) fn number(self, numbers: &[u64]) -> u64
        ensures { result ≡ get_or numbers.now (label_count self.label) 0 }
    {
        match numbers.get(self.label.count()) {
            Some(number) => *number,
            None => 0,
        }
    }
}

impl<'a> Model for Fields<'a> {
    ghost use Rattle.sval_script.specs.Fields.{LineLeft, line_left};

    ghost Value = { LineLeft };

    ghost view = { line_left };
}

impl<'a> Fields<'a> {
    /// The line that a script begins with, whose first field is its word.
    pub(crate) fn new(script: &'a [u8]) -> Fields<'a>
        ensures { result ≡ line_ahead script.now }
    {
        Fields {
            rest: script,
            is_over: false,
        }
    }

    /// The next field.
    #[inline(always)]
    pub(crate) fn next(&mut self) -> Option<&'a [u8]>
        ensures { MatchOption result (NoField self.old) (λ field. self.old ≡ with_field field.now self.new) }
    {
        if self.is_over {
            return None;
        }
        let Some(end) = field_end(self.rest) else {
            return None;
        };
        let field = &self.rest[..end];
        self.is_over = self.rest[end] == b'\n';
        self.rest = &self.rest[end + 1..];
        Some(field)
    }

    /// What is left behind the next field, if that is `-`: most that may be are, and no search is needed for its end.
    #[inline(always)]
    fn behind_dash(&self) -> Option<Fields<'a>>
        ensures { IfSome result (λ rest. self.now ≡ with_field (45 ∷ []) rest) }
    {
        if self.is_over {
            return None;
        }
        match self.rest {
            [b'-', b' ', rest @ ..] => Some(Fields {
                rest,
                is_over: false,
            }),
            [b'-', b'\n', rest @ ..] => Some(Fields {
                rest,
                is_over: true,
            }),
            _ => None,
        }
    }

    /// What follows the line, if all of its fields were read.
    #[inline(always)]
    pub(crate) fn end(&self) -> Option<&'a [u8]>
        ensures { HasNoFieldsLeft self.now result }
    {
        if self.is_over { Some(self.rest) } else { None }
    }

    /// The next field, a word.
    #[tactic(auto, using(crate::proofs::FieldsRead::no_word_read, crate::proofs::FieldsRead::word_read))]
    #[inline(always)]
    pub(crate) fn word(&mut self) -> Option<Word>
        ensures { ReadsWord self.old self.new result }
    {
        Word::read(self.next()?)
    }

    /// The next field, a truth value.
    #[tactic(auto, using(crate::proofs::FieldsRead::none_read, crate::proofs::FieldsRead::field_read))]
    #[inline(always)]
    pub(crate) fn truth(&mut self) -> Option<bool>
        ensures { ReadsNext script.truth self.old self.new result }
    {
        truth(self.next()?)
    }

    /// The next field, a whole number in the type's range.
    #[tactic(auto, using(crate::proofs::FieldsRead::none_read, crate::proofs::FieldsRead::read_as))]
    #[inline(always)]
    pub(crate) fn number(&mut self, kind: NumberType) -> Option<Int>
        ensures number { ReadsAs (script.whole_number_of (type_of kind)) int_number self.old self.new result }
        ensures of_type { IfSome result (λ number. int_type number ≡ type_of kind) }
    {
        number(kind, self.next()?)
    }

    /// The next field, a size, or `-` where there is none.
    #[tactic(auto, using(crate::proofs::FieldsRead::none_read, crate::proofs::FieldsRead::field_read, crate::proofs::FieldsRead::dash_size_read))]
    #[inline(always)]
    pub(crate) fn size(&mut self) -> Option<Option<usize>>
        ensures { ReadsNext script.size self.old self.new result }
    {
        if let Some(behind) = self.behind_dash() {
            *self = behind;
            return Some(None);
        }
        size(self.next()?)
    }

    /// The next field, a tag.
    #[tactic(auto, using(crate::proofs::FieldsRead::none_read, crate::proofs::FieldsRead::read_as))]
    #[inline(always)]
    pub(crate) fn tag(&mut self) -> Option<TagField>
        ensures { ReadsAs script.tag_named tag_text self.old self.new result }
    {
        TagField::read(self.next()?)
    }

    /// The next field, a tag, or `-` where there is none.
    #[tactic(auto, using(crate::proofs::FieldsRead::none_read, crate::proofs::FieldsRead::read_as, crate::proofs::FieldsRead::dash_tag_read))]
    #[inline(always)]
    pub(crate) fn tag_or_dash(&mut self) -> Option<TagField>
        ensures { ReadsAs (script.or_dash script.tag_named) tag_of self.old self.new result }
    {
        if let Some(behind) = self.behind_dash() {
            *self = behind;
            return Some(TagField::Absent);
        }
        TagField::read_or_dash(self.next()?)
    }

    /// The next field, an index.
    #[tactic(auto, using(crate::proofs::FieldsRead::none_read, crate::proofs::FieldsRead::read_as))]
    #[inline(always)]
    pub(crate) fn index(&mut self) -> Option<IndexRead>
        ensures { ReadsAs script.index index_of self.old self.new result }
    {
        index(self.next()?)
    }

    /// The next field, an index, or `-` where there is none, and its number.
    #[tactic(auto, using(crate::proofs::FieldsRead::none_read, crate::proofs::FieldsRead::read_as, crate::proofs::FieldsRead::dash_index_read))]
    #[inline(always)]
    pub(crate) fn index_or_dash(&mut self) -> Option<(IndexField, u64)>
        ensures { ReadsAs (script.or_dash script.index) index_field_of self.old self.new result }
    {
        if let Some(behind) = self.behind_dash() {
            *self = behind;
            return Some((IndexField::Absent, 0));
        }
        index_or_dash(self.next()?)
    }

    /// Decodes the next field into the store, if it ends the line and has `=` and as many hex digits as the store
    /// expects. No search is needed for its end, since nothing but hex digits is decoded. Answers whether it was
    /// decoded.
    #[inline(always)]
    fn decode_expected(&mut self, store: &mut Bytes) -> bool
        ensures { MatchBool result
            (DecodesNext self.old self.new store.old.items store.new.items)
            (LeavesNext self.old self.new store.old.items store.new.items) }
    {
        let [b'=', behind @ ..] = self.rest else {
            return false;
        };
        let len = store.expected_digits();
        if self.is_over || len >= behind.len() || behind[len] != b'\n' {
            return false;
        }
        if store.decode(&behind[..len]).is_err() {
            return false;
        }
        self.rest = &behind[len + 1..];
        self.is_over = true;
        true
    }

    /// The next field, a text, which goes behind what the store has. Answers how many bytes it has.
    #[inline(always)]
    pub(crate) fn text(&mut self, store: &mut Bytes) -> Result<u32, LineError>
        ensures stored { IfOk result (λ len.
            StoresNextText self.old self.new store.old.items store.new.items len) }
        ensures bad { result ≡ Err LineError.Bad → NoNext script.text self.old }
    {
        if is_end_far(self.rest) {
            self.long_text(store)
        } else {
            store_text(store, self.next().ok_or(LineError::Bad)?)
        }
    }

    /// Reads as `text` does, and first tries whether the field has as many digits as the last one that was read here.
    #[inline(never)]
    fn long_text(&mut self, store: &mut Bytes) -> Result<u32, LineError>
        ensures stored { IfOk result (λ len.
            StoresNextText self.old self.new store.old.items store.new.items len) }
        ensures bad { result ≡ Err LineError.Bad → NoNext script.text self.old }
    {
        let start = store.len();
        if self.decode_expected(store) {
            return text_len(store, start);
        }
        let field = self.next().ok_or(LineError::Bad)?;
        store.expect_digits(field.len().saturating_sub(1));
        store_text(store, field)
    }

    /// The next field, bytes, which go behind what the store has. Answers how many they are.
    #[inline(always)]
    pub(crate) fn bytes(&mut self, store: &mut Bytes) -> Result<u32, LineError>
        ensures stored { IfOk result (λ len.
            StoresNextBytes self.old self.new store.old.items store.new.items len) }
        ensures bad { result ≡ Err LineError.Bad → NoNext script.bytes self.old }
    {
        if is_end_far(self.rest) {
            self.long_bytes(store)
        } else {
            store_bytes(store, self.next().ok_or(LineError::Bad)?)
        }
    }

    /// Reads as `bytes` does, and first tries whether the field has as many digits as the last one that was read here.
    #[inline(never)]
    fn long_bytes(&mut self, store: &mut Bytes) -> Result<u32, LineError>
        ensures stored { IfOk result (λ len.
            StoresNextBytes self.old self.new store.old.items store.new.items len) }
        ensures bad { result ≡ Err LineError.Bad → NoNext script.bytes self.old }
    {
        let start = store.len();
        if self.decode_expected(store) {
            return kept_len(store.len() - start);
        }
        let field = self.next().ok_or(LineError::Bad)?;
        store.expect_digits(field.len().saturating_sub(1));
        store_bytes(store, field)
    }

    /// The next field, a label, whose text goes behind what the store has.
    #[inline(always)]
    pub(crate) fn label(&mut self, store: &mut Bytes) -> Result<LabelRead, LineError>
        ensures stored { IfOk result (λ label.
            StoresNextLabel self.old self.new store.old.items store.new.items label) }
        ensures bad { result ≡ Err LineError.Bad → NoNext script.label self.old }
    {
        store_label(store, self.next().ok_or(LineError::Bad)?)
    }

    /// The next field, a label, whose text goes behind what the store has, or `-` where there is none. Answers also how
    /// many bytes the text has.
    #[tactic(auto, using(crate::proofs::FieldsRead::dash_label_stored))]
    #[inline(always)]
    pub(crate) fn label_or_dash(
        &mut self,
        store: &mut Bytes,
    ) -> Result<(LabelField, u32), LineError>
        ensures stored { IfOk result (λ read.
            StoresNextLabelField self.old self.new store.old.items store.new.items read.0 read.1) }
        ensures bad { result ≡ Err LineError.Bad → NoNext (script.or_dash script.label) self.old }
    {
        if let Some(behind) = self.behind_dash() {
            *self = behind;
            return Ok((LabelField::Absent, 0));
        }
        store_label_or_dash(store, self.next().ok_or(LineError::Bad)?)
    }

    /// The next three fields, a name, whose label's text goes behind what the store has.
    #[inline(always)]
    pub(crate) fn name(&mut self, store: &mut Bytes) -> Result<NameRead, LineError>
        ensures stored { IfOk result (λ name. ReadsName self.old self.new store.old.items store.new.items name) }
        ensures bad { result ≡ Err LineError.Bad
            → (next : call.Name → script.LineForm) → call_before (script.name next) self.old ≡ None }
    {
        let tag = self.tag_or_dash().ok_or(LineError::Bad)?;
        let (label, len) = self.label_or_dash(store)?;
        let (index, number) = self.index_or_dash().ok_or(LineError::Bad)?;
        Ok(NameRead {
            parts: NameFields { tag, label, index },
            len,
            number,
        })
    }
}
