//! Tokens of calls: copies of what lives for the call alone.

ghost use Rattle.std.specs.Prelude.{◌≡◌, IfOk, option_map, string_bytes};
ghost use Rattle.sval_label.specs.Calls as calls;
ghost use Rattle.sval_label.specs.Made.{lent_call};
ghost use Rattle.sval_label.specs.Grouped.{int_call, seen_head, seen_slot};
ghost use Rattle.sval_label.specs.SeenName.{seen_name};
ghost use Rattle.sval_check.specs.Tokens.{token_name, token_call};

use crate::fragments::{TokenBytes, TokenText};
use crate::token::{Token, TokenName};
use std::alloc::Global;
use sval_core::{Call, Fragment, GroupedCall, Head, Int, Label, Name, NoMemory, Slot};

/// The token of a call, with copies of its labels and of a computed fragment.
pub(crate) fn token_of<'sval>(
    alloc: Global,
    call: Call<'sval, '_>,
) -> Result<Token<'sval>, NoMemory>
    ensures { IfOk result (λ token. token_call token ≡ lent_call call.entry) }
{
    match call.grouped() {
        GroupedCall::Null => Ok(Token::Null),
        GroupedCall::Bool(value) => Ok(Token::Bool(value)),
        GroupedCall::Int(number) => Ok(int_token(number)),
        GroupedCall::TextBegin(size) => Ok(Token::TextBegin(size)),
        GroupedCall::TextFragment(Fragment::Borrowed(text)) => Ok(Token::TextFragment(text)),
        GroupedCall::TextFragment(Fragment::Computed(text)) => {
            Ok(Token::TextFragmentComputed(text_copy(alloc, text)?))
        }
        GroupedCall::TextEnd => Ok(Token::TextEnd),
        GroupedCall::BinaryBegin(size) => Ok(Token::BinaryBegin(size)),
        GroupedCall::BinaryFragment(Fragment::Borrowed(bytes)) => Ok(Token::BinaryFragment(bytes)),
        GroupedCall::BinaryFragment(Fragment::Computed(bytes)) => {
            Ok(Token::BinaryFragmentComputed(bytes_copy(alloc, bytes)?))
        }
        GroupedCall::BinaryEnd => Ok(Token::BinaryEnd),
        GroupedCall::EnumBegin(name) => Ok(Token::EnumBegin(name_copy(alloc, name)?)),
        GroupedCall::EnumEnd(name) => Ok(Token::EnumEnd(name_copy(alloc, name)?)),
        GroupedCall::TaggedBegin(name) => Ok(Token::TaggedBegin(name_copy(alloc, name)?)),
        GroupedCall::TaggedEnd(name) => Ok(Token::TaggedEnd(name_copy(alloc, name)?)),
        GroupedCall::Tag(name) => Ok(Token::Tag(name_copy(alloc, name)?)),
        GroupedCall::TagHint(tag) => Ok(Token::TagHint(*tag)),
        GroupedCall::Begin(head, size) => begin_token(alloc, head, size),
        GroupedCall::End(head) => end_token(alloc, head),
        GroupedCall::PartBegin(slot) => part_begin_token(alloc, slot),
        GroupedCall::PartEnd(slot) => part_end_token(alloc, slot),
    }
}

/// The token of a whole number.
fn int_token<'sval>(number: Int) -> Token<'sval>
    ensures { token_call result ≡ int_call number }
{
    match number {
        Int::U8(value) => Token::U8(value),
        Int::U16(value) => Token::U16(value),
        Int::U32(value) => Token::U32(value),
        Int::U64(value) => Token::U64(value),
        Int::U128(value) => Token::U128(value),
        Int::I8(value) => Token::I8(value),
        Int::I16(value) => Token::I16(value),
        Int::I32(value) => Token::I32(value),
        Int::I64(value) => Token::I64(value),
        Int::I128(value) => Token::I128(value),
    }
}

/// The token of a container's begin.
fn begin_token<'sval>(
    alloc: Global,
    head: Head<'_>,
    size: Option<usize>,
) -> Result<Token<'sval>, NoMemory>
    ensures { IfOk result (λ token. token_call token ≡ calls.Begin (seen_head head.entry) size) }
{
    match head {
        Head::Seq => Ok(Token::SeqBegin(size)),
        Head::Map => Ok(Token::MapBegin(size)),
        Head::Record(name) => Ok(Token::RecordBegin(name_copy(alloc, name)?, size)),
        Head::Tuple(name) => Ok(Token::TupleBegin(name_copy(alloc, name)?, size)),
        Head::RecordTuple(name) => Ok(Token::RecordTupleBegin(name_copy(alloc, name)?, size)),
    }
}

/// The token of a container's end.
fn end_token<'sval>(alloc: Global, head: Head<'_>) -> Result<Token<'sval>, NoMemory>
    ensures { IfOk result (λ token. token_call token ≡ calls.End (seen_head head.entry)) }
{
    match head {
        Head::Seq => Ok(Token::SeqEnd),
        Head::Map => Ok(Token::MapEnd),
        Head::Record(name) => Ok(Token::RecordEnd(name_copy(alloc, name)?)),
        Head::Tuple(name) => Ok(Token::TupleEnd(name_copy(alloc, name)?)),
        Head::RecordTuple(name) => Ok(Token::RecordTupleEnd(name_copy(alloc, name)?)),
    }
}

/// The token of a part's begin.
fn part_begin_token<'sval>(alloc: Global, slot: Slot<'_>) -> Result<Token<'sval>, NoMemory>
    ensures { IfOk result (λ token. token_call token ≡ calls.PartBegin (seen_slot slot.entry)) }
{
    match slot {
        Slot::Item => Ok(Token::SeqValueBegin),
        Slot::Key => Ok(Token::MapKeyBegin),
        Slot::Value => Ok(Token::MapValueBegin),
        Slot::Field(tag, label) => Ok(Token::RecordValueBegin(
            tag.copied(),
            label.to_owned(alloc)?,
        )),
        Slot::Place(tag, index) => Ok(Token::TupleValueBegin(tag.copied(), *index)),
        Slot::FieldPlace(tag, label, index) => Ok(Token::RecordTupleValueBegin(
            tag.copied(),
            label.to_owned(alloc)?,
            *index,
        )),
    }
}

/// The token of a part's end.
fn part_end_token<'sval>(alloc: Global, slot: Slot<'_>) -> Result<Token<'sval>, NoMemory>
    ensures { IfOk result (λ token. token_call token ≡ calls.PartEnd (seen_slot slot.entry)) }
{
    match slot {
        Slot::Item => Ok(Token::SeqValueEnd),
        Slot::Key => Ok(Token::MapKeyEnd),
        Slot::Value => Ok(Token::MapValueEnd),
        Slot::Field(tag, label) => Ok(Token::RecordValueEnd(tag.copied(), label.to_owned(alloc)?)),
        Slot::Place(tag, index) => Ok(Token::TupleValueEnd(tag.copied(), *index)),
        Slot::FieldPlace(tag, label, index) => Ok(Token::RecordTupleValueEnd(
            tag.copied(),
            label.to_owned(alloc)?,
            *index,
        )),
    }
}

/// A name with a copy of its label.
fn name_copy(alloc: Global, name: Name<'_>) -> Result<TokenName, NoMemory>
    ensures { IfOk result (λ copy. token_name copy ≡ seen_name name.entry) }
{
    Ok(TokenName {
        tag: name.tag.copied(),
        label: label_copy(alloc, name.label)?,
        index: name.index.copied(),
    })
}

/// A copy of a label, if there is one. That of a static label takes no memory.
fn label_copy(alloc: Global, label: Option<&Label<'_>>) -> Result<Option<Label<'static>>, NoMemory>
    ensures { IfOk result (λ copy. copy ≡ option_map (λ label. label.now) label.entry) }
{
    match label {
        Some(label) => Ok(Some(label.to_owned(alloc)?)),
        None => Ok(None),
    }
}

/// A copy of a part of a text.
fn text_copy(alloc: Global, text: &str) -> Result<TokenText, NoMemory>
    ensures { IfOk result (λ copy. copy ≡ text.now) }
{
    Ok(TokenText::new(String::from_str(alloc, text)?))
}

/// A copy of a part of a binary.
fn bytes_copy(alloc: Global, bytes: &[u8]) -> Result<TokenBytes, NoMemory>
    ensures { IfOk result (λ copy. copy ≡ bytes.now) }
{
    Ok(TokenBytes::new(Vec::from_slice(alloc, bytes)?))
}
