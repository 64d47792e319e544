//! The words that lines begin with.

ghost use Rattle.std.specs.Prelude.{◌≡◌, ◌++◌, None, IfSome, codes};
ghost use Rattle.sval_label.specs.Calls as call;
ghost use Rattle.sval_label.specs.Grouped.{grouped_call, int_type, seen_head, seen_slot};
ghost use Rattle.sval_script.specs.Printed as line;
ghost use Rattle.sval_script.specs.Printing.{fields_of, spaced, word_of};

use sval_core::{Fragment, GroupedCall, Head, Int, Slot};

/// The word of a whole number's type.
fn type_word(number: Int) -> &'static [u8]
    ensures { result.now ≡ line.type_word (int_type number) }
{
    match number {
        Int::U8(_) => b"u8",
        Int::U16(_) => b"u16",
        Int::U32(_) => b"u32",
        Int::U64(_) => b"u64",
        Int::U128(_) => b"u128",
        Int::I8(_) => b"i8",
        Int::I16(_) => b"i16",
        Int::I32(_) => b"i32",
        Int::I64(_) => b"i64",
        Int::I128(_) => b"i128",
    }
}

/// The word of a container's begin.
fn head_begin_word(head: Head) -> &'static [u8]
    ensures { result.now ≡ word_of (call.Begin (seen_head head.entry) None) }
{
    match head {
        Head::Seq => b"seq_begin",
        Head::Map => b"map_begin",
        Head::Record(_) => b"record_begin",
        Head::Tuple(_) => b"tuple_begin",
        Head::RecordTuple(_) => b"record_tuple_begin",
    }
}

/// The word of a container's end.
fn head_end_word(head: Head) -> &'static [u8]
    ensures { result.now ≡ word_of (call.End (seen_head head.entry)) }
{
    match head {
        Head::Seq => b"seq_end",
        Head::Map => b"map_end",
        Head::Record(_) => b"record_end",
        Head::Tuple(_) => b"tuple_end",
        Head::RecordTuple(_) => b"record_tuple_end",
    }
}

/// The word of a part's begin.
fn part_begin_word(slot: Slot) -> &'static [u8]
    ensures { result.now ≡ line.part_begin_word (seen_slot slot.entry) }
{
    match slot {
        Slot::Item => b"seq_value_begin",
        Slot::Key => b"map_key_begin",
        Slot::Value => b"map_value_begin",
        Slot::Field(_, _) => b"record_value_begin",
        Slot::Place(_, _) => b"tuple_value_begin",
        Slot::FieldPlace(_, _, _) => b"record_tuple_value_begin",
    }
}

/// The word of a part's end.
fn part_end_word(slot: Slot) -> &'static [u8]
    ensures { result.now ≡ line.part_end_word (seen_slot slot.entry) }
{
    match slot {
        Slot::Item => b"seq_value_end",
        Slot::Key => b"map_key_end",
        Slot::Value => b"map_value_end",
        Slot::Field(_, _) => b"record_value_end",
        Slot::Place(_, _) => b"tuple_value_end",
        Slot::FieldPlace(_, _, _) => b"record_tuple_value_end",
    }
}

/// The word of a call's line.
pub(crate) fn word(call: GroupedCall<'_, &str, &[u8]>) -> &'static [u8]
    ensures { result.now ≡ word_of (grouped_call (λ text. text.now) (λ bytes. bytes.now) call.entry) }
{
    match call {
        GroupedCall::Null => b"null",
        GroupedCall::Bool(_) => b"bool",
        GroupedCall::Int(number) => type_word(number),
        GroupedCall::TextBegin(_) => b"text_begin",
        GroupedCall::TextFragment(Fragment::Borrowed(_)) => b"text_fragment",
        GroupedCall::TextFragment(Fragment::Computed(_)) => b"text_fragment_computed",
        GroupedCall::TextEnd => b"text_end",
        GroupedCall::BinaryBegin(_) => b"binary_begin",
        GroupedCall::BinaryFragment(Fragment::Borrowed(_)) => b"binary_fragment",
        GroupedCall::BinaryFragment(Fragment::Computed(_)) => b"binary_fragment_computed",
        GroupedCall::BinaryEnd => b"binary_end",
        GroupedCall::EnumBegin(_) => b"enum_begin",
        GroupedCall::EnumEnd(_) => b"enum_end",
        GroupedCall::TaggedBegin(_) => b"tagged_begin",
        GroupedCall::TaggedEnd(_) => b"tagged_end",
        GroupedCall::Tag(_) => b"tag",
        GroupedCall::TagHint(_) => b"tag_hint",
        GroupedCall::Begin(head, _) => head_begin_word(head),
        GroupedCall::End(head) => head_end_word(head),
        GroupedCall::PartBegin(slot) => part_begin_word(slot),
        GroupedCall::PartEnd(slot) => part_end_word(slot),
    }
}

/// The line of a part's begin that has no name.
fn part_begin_line(slot: Slot) -> Option<&'static [u8]>
    ensures { let said = call.PartBegin (seen_slot slot.entry) in
        IfSome result (λ line. line.now ≡ word_of said ++ (spaced (fields_of said) ++ codes "\n")) }
{
    match slot {
        Slot::Item => Some(b"seq_value_begin\n"),
        Slot::Key => Some(b"map_key_begin\n"),
        Slot::Value => Some(b"map_value_begin\n"),
        Slot::Field(_, _) | Slot::Place(_, _) | Slot::FieldPlace(_, _, _) => None,
    }
}

/// The line of a part's end that has no name.
fn part_end_line(slot: Slot) -> Option<&'static [u8]>
    ensures { let said = call.PartEnd (seen_slot slot.entry) in
        IfSome result (λ line. line.now ≡ word_of said ++ (spaced (fields_of said) ++ codes "\n")) }
{
    match slot {
        Slot::Item => Some(b"seq_value_end\n"),
        Slot::Key => Some(b"map_key_end\n"),
        Slot::Value => Some(b"map_value_end\n"),
        Slot::Field(_, _) | Slot::Place(_, _) | Slot::FieldPlace(_, _, _) => None,
    }
}

/// The line of a call whose line is the same whatever the call holds, with its line feed.
pub(crate) fn bare_line(call: GroupedCall<'_, &str, &[u8]>) -> Option<&'static [u8]>
    ensures { let said = grouped_call (λ text. text.now) (λ bytes. bytes.now) call.entry in
        IfSome result (λ line. line.now ≡ word_of said ++ (spaced (fields_of said) ++ codes "\n")) }
{
    match call {
        GroupedCall::Null => Some(b"null\n"),
        GroupedCall::TextEnd => Some(b"text_end\n"),
        GroupedCall::BinaryEnd => Some(b"binary_end\n"),
        GroupedCall::Begin(Head::Seq, None) => Some(b"seq_begin -\n"),
        GroupedCall::Begin(Head::Map, None) => Some(b"map_begin -\n"),
        GroupedCall::End(Head::Seq) => Some(b"seq_end\n"),
        GroupedCall::End(Head::Map) => Some(b"map_end\n"),
        GroupedCall::PartBegin(slot) => part_begin_line(slot),
        GroupedCall::PartEnd(slot) => part_end_line(slot),
        _ => None,
    }
}
