//! The numbers of calls, and those that operands are.

ghost use Rattle.std.specs.Prelude.{◌≡◌};
ghost use Rattle.sval_label.specs.Grouped.{grouped_call, int_type, seen_head, seen_slot};
ghost use Rattle.sval_label.specs.SeenIndex.{seen_index};
ghost use Rattle.sval_tape.specs.Tapes as tape;

use sval_core::{Fragment, GroupedCall, Head, Index, Int, Slot};

/// A signed number as one without a sign.
pub(crate) fn zigzag(number: i128) -> u128
    ensures { result ≡ tape.zigzag number }
{
    if number < 0 {
        let steps = (-1 - number) as u128;
        return 2 * steps + 1;
    }
    let steps = number as u128;
    2 * steps
}

/// The number of an index, which is in the range of an `i64` or of a `u64`.
fn number_of(index: &Index) -> i128
    ensures { result ≡ (seen_index index.now).number }
{
    match index.to_i64() {
        Some(number) => i128::from(number),
        None => i128::from(index.to_u64().unwrap_or(0)),
    }
}

/// The number of an index as one without a sign.
pub(crate) fn index_number(index: &Index) -> u128
    ensures { result ≡ tape.zigzag (seen_index index.now).number }
{
    zigzag(number_of(index))
}

/// The number of a type.
fn type_number(number: Int) -> u8
    ensures { result ≡ tape.type_number (int_type number) }
{
    match number {
        Int::U8(_) => 0,
        Int::U16(_) => 1,
        Int::U32(_) => 2,
        Int::U64(_) => 3,
        Int::U128(_) => 4,
        Int::I8(_) => 5,
        Int::I16(_) => 6,
        Int::I32(_) => 7,
        Int::I64(_) => 8,
        Int::I128(_) => 9,
    }
}

/// The number of a container.
fn head_number(head: Head) -> u8
    ensures { result ≡ tape.head_number (seen_head head.entry) }
{
    match head {
        Head::Seq => 0,
        Head::Map => 1,
        Head::Record(_) => 2,
        Head::Tuple(_) => 3,
        Head::RecordTuple(_) => 4,
    }
}

/// The number of a part.
fn slot_number(slot: Slot) -> u8
    ensures { result ≡ tape.slot_number (seen_slot slot.entry) }
{
    match slot {
        Slot::Item => 0,
        Slot::Key => 1,
        Slot::Value => 2,
        Slot::Field(..) => 3,
        Slot::Place(..) => 4,
        Slot::FieldPlace(..) => 5,
    }
}

/// The number of a call.
pub(crate) fn call_number(call: GroupedCall<'_, &str, &[u8]>) -> u8
    ensures { let said = grouped_call (λ text. text.now) (λ bytes. bytes.now) call.entry in
        result ≡ tape.call_number said }
{
    match call {
        GroupedCall::Null => 0,
        GroupedCall::Bool(_) => 1,
        GroupedCall::Int(number) => 2 + type_number(number),
        GroupedCall::TextBegin(_) => 12,
        GroupedCall::TextFragment(Fragment::Borrowed(_)) => 13,
        GroupedCall::TextFragment(Fragment::Computed(_)) => 14,
        GroupedCall::TextEnd => 15,
        GroupedCall::BinaryBegin(_) => 16,
        GroupedCall::BinaryFragment(Fragment::Borrowed(_)) => 17,
        GroupedCall::BinaryFragment(Fragment::Computed(_)) => 18,
        GroupedCall::BinaryEnd => 19,
        GroupedCall::Tag(_) => 20,
        GroupedCall::TagHint(_) => 21,
        GroupedCall::EnumBegin(_) => 22,
        GroupedCall::EnumEnd(_) => 23,
        GroupedCall::TaggedBegin(_) => 24,
        GroupedCall::TaggedEnd(_) => 25,
        GroupedCall::Begin(head, _) => 26 + head_number(head),
        GroupedCall::End(head) => 31 + head_number(head),
        GroupedCall::PartBegin(slot) => 36 + slot_number(slot),
        GroupedCall::PartEnd(slot) => 42 + slot_number(slot),
    }
}
