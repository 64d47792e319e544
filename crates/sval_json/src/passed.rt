//! What is known of the calls that a program passes: their texts are UTF-8, their numbers are in range.

ghost use Rattle.std.specs.Prelude.{◌≡◌, IsUtf8, IfSome, option_map, true};
ghost use Rattle.sval_label.specs.Grouped.{grouped_call, int_number, int_type, seen_head, seen_slot};
ghost use Rattle.sval_label.specs.Ranges.{is_of_type};
ghost use Rattle.sval_label.specs.SeenIndex.{seen_index};
ghost use Rattle.sval_label.specs.SeenName.{seen_name};
ghost use Rattle.sval_core.specs.Real.{AreBytes, IsRealLabel, IsRealIndex, IsRealName, IsRealSlot, IsRealCall, head_name};
ghost use Rattle.sval_json.specs.Passed.{HasRealEnd};

use sval_core::{Fragment, GroupedCall, Head, Index, Int, Label, Name, Slot};

/// A text is UTF-8.
pub(crate) fn text_is_real(text: &str)
    ensures { IsUtf8 text.now }
{}

/// Bytes are bytes.
fn bytes_are_real(bytes: &[u8])
    ensures { AreBytes bytes.now }
{}

/// A label is UTF-8.
fn label_is_real(label: &Label)
    ensures { IsRealLabel label.now }
{
    let _text = label.as_str();
}

/// An index is in range.
fn index_is_real(index: &Index)
    ensures { IsRealIndex (seen_index index.now) }
{}

/// A whole number is in the range of its type.
fn int_is_real(int: Int)
    ensures { is_of_type (int_type int) (int_number int) ≡ true }
{}

/// A label is UTF-8, where it is given.
fn given_label_is_real(label: Option<&Label>)
    ensures { IfSome (option_map (λ label. label.now) label.entry) IsRealLabel }
{
    match label {
        Some(label) => label_is_real(label),
        None => (),
    }
}

/// An index is in range, where it is given.
fn given_index_is_real(index: Option<&Index>)
    ensures { IfSome (option_map (λ index. seen_index index.now) index.entry) IsRealIndex }
{
    match index {
        Some(index) => index_is_real(index),
        None => (),
    }
}

/// A name is real.
fn name_is_real(name: Name)
    ensures { IsRealName (seen_name name.entry) }
{
    given_label_is_real(name.label);
    given_index_is_real(name.index);
}

/// The name of a container is real.
fn head_is_real(head: Head)
    ensures { IsRealName (head_name (seen_head head.entry)) }
{
    match head {
        Head::Seq | Head::Map => (),
        Head::Record(name) | Head::Tuple(name) | Head::RecordTuple(name) => name_is_real(name),
    }
}

/// The place of a part is real.
fn slot_is_real(slot: Slot)
    ensures { IsRealSlot (seen_slot slot.entry) }
{
    match slot {
        Slot::Item | Slot::Key | Slot::Value => (),
        Slot::Field(_, label) => label_is_real(label),
        Slot::Place(_, index) => index_is_real(index),
        Slot::FieldPlace(_, label, index) => {
            label_is_real(label);
            index_is_real(index);
        }
    }
}

/// A call is real.
pub(crate) fn call_is_real(call: GroupedCall<'_, &str, &[u8]>)
    ensures { IsRealCall (grouped_call (λ text. text.now) (λ bytes. bytes.now) call.entry) }
{
    match call {
        GroupedCall::Int(int) => int_is_real(int),
        GroupedCall::TextFragment(Fragment::Borrowed(text) | Fragment::Computed(text)) =>
            text_is_real(text),
        GroupedCall::BinaryFragment(Fragment::Borrowed(bytes) | Fragment::Computed(bytes)) =>
            bytes_are_real(bytes),
        GroupedCall::Tag(name) | GroupedCall::TaggedBegin(name) | GroupedCall::EnumBegin(name) =>
            name_is_real(name),
        GroupedCall::Begin(head, _) => head_is_real(head),
        GroupedCall::PartBegin(slot) => slot_is_real(slot),
        _ => (),
    }
}

/// The name of a variant is real where it ends.
pub(crate) fn end_is_real(call: GroupedCall<'_, &str, &[u8]>)
    ensures { HasRealEnd (grouped_call (λ text. text.now) (λ bytes. bytes.now) call.entry) }
{
    match call {
        GroupedCall::TaggedEnd(name) | GroupedCall::EnumEnd(name) => name_is_real(name),
        _ => (),
    }
}
