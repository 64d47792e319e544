//! The key that is held.

ghost use Rattle.std.specs.Prelude.{◌≡◌, ℕ, true, List, is_some, IfOk, OnErr, string_bytes};
ghost use Rattle.sval_label.specs.Made.{call_of};
ghost use Rattle.sval_label.specs.Grouped.{grouped_call};
ghost use Rattle.sval_core.specs.Law.{computed};
ghost use Rattle.sval_buffer.specs.SeenBuffers.{capture_of};
ghost use Rattle.sval_filter.specs.Filtering.{held_label};
ghost use Rattle.sval_filter.specs.Held.{is_end, HoldsCall};
ghost use Rattle.sval_filter.specs.SeenKeys.{text_by};

use crate::key_text::KeyText;
use std::alloc::AllocError;
use sval_buffer::ValueBuf;
use sval_core::{AnyCall, Fragment, GroupedCall, Lending, NoMemory, Stream};
use sval_ref::ValueRef;

/// The call with its fragment as a computed one.
fn as_computed<'a, 'c, L: Lending>(
    call: &'a GroupedCall<'c, L::Text, L::Bytes>,
) -> GroupedCall<'a, &'static str, &'static [u8]>
    ensures { (text : _) (bytes : _)
        → grouped_call text bytes result ≡ computed (grouped_call L.text L.bytes call.now) }
{
    match call {
        GroupedCall::Null => GroupedCall::Null,
        GroupedCall::Bool(value) => GroupedCall::Bool(*value),
        GroupedCall::Int(number) => GroupedCall::Int(*number),
        GroupedCall::TextBegin(size) => GroupedCall::TextBegin(*size),
        GroupedCall::TextFragment(Fragment::Borrowed(text)) => {
            GroupedCall::TextFragment(Fragment::Computed(L::as_str(text)))
        }
        GroupedCall::TextFragment(Fragment::Computed(text)) => {
            GroupedCall::TextFragment(Fragment::Computed(*text))
        }
        GroupedCall::TextEnd => GroupedCall::TextEnd,
        GroupedCall::BinaryBegin(size) => GroupedCall::BinaryBegin(*size),
        GroupedCall::BinaryFragment(Fragment::Borrowed(bytes)) => {
            GroupedCall::BinaryFragment(Fragment::Computed(L::as_bytes(bytes)))
        }
        GroupedCall::BinaryFragment(Fragment::Computed(bytes)) => {
            GroupedCall::BinaryFragment(Fragment::Computed(*bytes))
        }
        GroupedCall::BinaryEnd => GroupedCall::BinaryEnd,
        GroupedCall::EnumBegin(name) => GroupedCall::EnumBegin(*name),
        GroupedCall::EnumEnd(name) => GroupedCall::EnumEnd(*name),
        GroupedCall::TaggedBegin(name) => GroupedCall::TaggedBegin(*name),
        GroupedCall::TaggedEnd(name) => GroupedCall::TaggedEnd(*name),
        GroupedCall::Tag(name) => GroupedCall::Tag(*name),
        GroupedCall::TagHint(tag) => GroupedCall::TagHint(*tag),
        GroupedCall::Begin(head, size) => GroupedCall::Begin(*head, *size),
        GroupedCall::End(head) => GroupedCall::End(*head),
        GroupedCall::PartBegin(slot) => GroupedCall::PartBegin(*slot),
        GroupedCall::PartEnd(slot) => GroupedCall::PartEnd(*slot),
    }
}

/// The call ends what has begun.
fn is_end<T, B>(call: &GroupedCall<'_, T, B>) -> bool
    ensures { (text : T → List ℕ) (bytes : B → List ℕ) → result ≡ is_end (grouped_call text bytes call.now) }
{
    match call {
        GroupedCall::TextEnd
        | GroupedCall::BinaryEnd
        | GroupedCall::EnumEnd(_)
        | GroupedCall::TaggedEnd(_)
        | GroupedCall::End(_)
        | GroupedCall::PartEnd(_) => true,
        _ => false,
    }
}

/// Holds a call of a key. An end takes no memory, and so is held wherever it closes something.
pub(crate) fn hold<L: Lending>(
    held: &mut ValueBuf<'static>,
    call: AnyCall<'_, L::Text, L::Bytes>,
) -> Result<(), NoMemory>
    ensures { HoldsCall (call_of L.text L.bytes call.entry)
        (capture_of held.old).forest result (capture_of held.new).forest }
{
    let call = call.grouped();
    match held.take(as_computed::<L>(&call).call()) {
        Ok(()) => Ok(()),
        Err(_) if is_end(&call) => Ok(()),
        Err(_) => Err(NoMemory::from(AllocError)),
    }
}

/// Reads the text that the held key is. It takes memory only where it is one.
pub(crate) fn read_text(held: &ValueBuf<'static>, text: &mut KeyText) -> Result<(), NoMemory>
    ensures label { IfOk result
        (λ _. text_by text.new.place (string_bytes text.new.text) ≡ held_label (capture_of held.now).forest) }
    ensures want { OnErr result (is_some (held_label (capture_of held.now).forest) ≡ true) }
{
    text.clear();
    match held.stream_ref(text) {
        Ok(()) => Ok(()),
        Err(_) => match text.want {
            Some(cause) => Err(cause),
            None => unreachable!("a key is read unless memory is wanting"),
        },
    }
}
