//! The bytes of calls, written operand by operand.

ghost use Rattle.std.specs.Prelude.{◌≡◌, [], ◌∷◌, ◌++◌, option_map};
ghost use Rattle.sval_label.specs.Grouped.{grouped_call, int_number, int_type, seen_head, seen_slot};
ghost use Rattle.sval_label.specs.SeenName.{seen_option_tag, seen_name};
ghost use Rattle.sval_label.specs.SeenIndex.{seen_index};
ghost use Rattle.sval_io.specs.Sinks.{WritesAll};
ghost use Rattle.sval_tape.specs.Tapes as tape;

use crate::numbers::{call_number, index_number, zigzag};
use sval_core::{Fragment, GroupedCall, Head, Index, Int, Label, Name, Slot, Tag};
use sval_io::{Sink, SinkError, write_all};

/// Writes a byte.
fn write_byte<K: Sink>(sink: &mut K, byte: u8) -> Result<(), SinkError>
    ensures { WritesAll result (K.told sink.old) (byte ∷ []) (K.told sink.new) }
{
    write_all(sink, &[byte])
}

/// Writes the lowest byte of a number, and then those above it, `room` bytes at most.
fn write_number_in<K: Sink>(sink: &mut K, room: usize, number: u128) -> Result<(), SinkError>
    ensures { WritesAll result (K.told sink.old) (tape.leb128_in room number) (K.told sink.new) }
{
    if room == 0 {
        return Ok(());
    }
    if number < 128 {
        return write_all(sink, &[number as u8]);
    }
    write_byte(sink, (number % 128) as u8 + 128)?;
    write_number_in(sink, room - 1, number / 128)
}

/// Writes a number as LEB128, in the shortest form.
#[tactic(auto, unfolding(crate::specs::Tapes::leb128))]
fn write_number<K: Sink>(sink: &mut K, number: u128) -> Result<(), SinkError>
    ensures { WritesAll result (K.told sink.old) (tape.leb128 number) (K.told sink.new) }
{
    write_number_in(sink, 19, number)
}

/// Writes the number of some bytes, and then the bytes.
fn write_block<K: Sink>(sink: &mut K, bytes: &[u8]) -> Result<(), SinkError>
    ensures { WritesAll result (K.told sink.old) (tape.block bytes.now) (K.told sink.new) }
{
    write_number(sink, bytes.len() as u128)?;
    write_all(sink, bytes)
}

/// Writes a size, where one is given.
fn write_size<K: Sink>(sink: &mut K, size: Option<usize>) -> Result<(), SinkError>
    ensures { WritesAll result (K.told sink.old) (tape.size_bytes size) (K.told sink.new) }
{
    let Some(size) = size else {
        return write_all(sink, &[0]);
    };
    write_byte(sink, 1)?;
    write_number(sink, size as u128)
}

/// Writes a tag, where one is given.
fn write_tag<K: Sink>(sink: &mut K, tag: Option<&Tag>) -> Result<(), SinkError>
    ensures { WritesAll result (K.told sink.old) (tape.tag_bytes (seen_option_tag tag.entry)) (K.told sink.new) }
{
    let Some(tag) = tag else {
        return write_all(sink, &[0]);
    };
    write_byte(sink, 1)?;
    write_block(sink, tag.text.as_bytes())
}

/// Writes a label.
fn write_label<K: Sink>(sink: &mut K, label: &Label) -> Result<(), SinkError>
    ensures { WritesAll result (K.told sink.old) (tape.label_bytes label.now) (K.told sink.new) }
{
    write_block(sink, label.as_str().as_bytes())?;
    write_tag(sink, label.tag())
}

/// Writes an index.
fn write_index<K: Sink>(sink: &mut K, index: &Index) -> Result<(), SinkError>
    ensures { WritesAll result (K.told sink.old) (tape.index_bytes (seen_index index.now)) (K.told sink.new) }
{
    write_number(sink, index_number(index))?;
    write_tag(sink, index.tag())
}

/// Writes a label, where one is given.
fn write_label_option<K: Sink>(sink: &mut K, label: Option<&Label>) -> Result<(), SinkError>
    ensures { let seen = option_map (λ label. label.now) label.entry in
        WritesAll result (K.told sink.old) (tape.optional tape.label_bytes seen) (K.told sink.new) }
{
    let Some(label) = label else {
        return write_all(sink, &[0]);
    };
    write_byte(sink, 1)?;
    write_label(sink, label)
}

/// Writes an index, where one is given.
fn write_index_option<K: Sink>(sink: &mut K, index: Option<&Index>) -> Result<(), SinkError>
    ensures { let seen = option_map (λ index. seen_index index.now) index.entry in
        WritesAll result (K.told sink.old) (tape.optional tape.index_bytes seen) (K.told sink.new) }
{
    let Some(index) = index else {
        return write_all(sink, &[0]);
    };
    write_byte(sink, 1)?;
    write_index(sink, index)
}

/// Writes a label and an index, each where it is given.
fn write_label_and_index<K: Sink>(
    sink: &mut K,
    label: Option<&Label>,
    index: Option<&Index>,
) -> Result<(), SinkError>
    ensures { let label = option_map (λ label. label.now) label.entry in
        let index = option_map (λ index. seen_index index.now) index.entry in
        WritesAll result (K.told sink.old)
        (tape.optional tape.label_bytes label ++ tape.optional tape.index_bytes index) (K.told sink.new) }
{
    write_label_option(sink, label)?;
    write_index_option(sink, index)
}

/// Writes a name.
fn write_name<K: Sink>(sink: &mut K, name: Name) -> Result<(), SinkError>
    ensures { WritesAll result (K.told sink.old) (tape.name_bytes (seen_name name.entry)) (K.told sink.new) }
{
    write_tag(sink, name.tag)?;
    write_label_and_index(sink, name.label, name.index)
}

/// Writes the tag and the label of a field.
fn write_field<K: Sink>(sink: &mut K, tag: Option<&Tag>, label: &Label) -> Result<(), SinkError>
    ensures { WritesAll result (K.told sink.old)
        (tape.tag_bytes (seen_option_tag tag.entry) ++ tape.label_bytes label.now) (K.told sink.new) }
{
    write_tag(sink, tag)?;
    write_label(sink, label)
}

/// Writes the tag and the index of a field.
fn write_place<K: Sink>(sink: &mut K, tag: Option<&Tag>, index: &Index) -> Result<(), SinkError>
    ensures { WritesAll result (K.told sink.old)
        (tape.tag_bytes (seen_option_tag tag.entry) ++ tape.index_bytes (seen_index index.now)) (K.told sink.new) }
{
    write_tag(sink, tag)?;
    write_index(sink, index)
}

/// Writes a label and an index.
fn write_both<K: Sink>(sink: &mut K, label: &Label, index: &Index) -> Result<(), SinkError>
    ensures { WritesAll result (K.told sink.old)
        (tape.label_bytes label.now ++ tape.index_bytes (seen_index index.now)) (K.told sink.new) }
{
    write_label(sink, label)?;
    write_index(sink, index)
}

/// Writes the tag, the label and the index of a field.
fn write_field_place<K: Sink>(
    sink: &mut K,
    tag: Option<&Tag>,
    label: &Label,
    index: &Index,
) -> Result<(), SinkError>
    ensures { let both = tape.label_bytes label.now ++ tape.index_bytes (seen_index index.now) in
        WritesAll result (K.told sink.old)
        (tape.tag_bytes (seen_option_tag tag.entry) ++ both) (K.told sink.new) }
{
    write_tag(sink, tag)?;
    write_both(sink, label, index)
}

/// Writes the operands of a part's begin or end.
fn write_slot<K: Sink>(sink: &mut K, slot: Slot) -> Result<(), SinkError>
    ensures { WritesAll result (K.told sink.old) (tape.slot_bytes (seen_slot slot.entry)) (K.told sink.new) }
{
    match slot {
        Slot::Item | Slot::Key | Slot::Value => write_all(sink, &[]),
        Slot::Field(tag, label) => write_field(sink, tag, label),
        Slot::Place(tag, index) => write_place(sink, tag, index),
        Slot::FieldPlace(tag, label, index) => write_field_place(sink, tag, label, index),
    }
}

/// Writes the name of a container, where its kind has one.
fn write_head<K: Sink>(sink: &mut K, head: Head) -> Result<(), SinkError>
    ensures { WritesAll result (K.told sink.old) (tape.tape_head_bytes (seen_head head.entry)) (K.told sink.new) }
{
    match head {
        Head::Seq | Head::Map => write_all(sink, &[]),
        Head::Record(name) | Head::Tuple(name) | Head::RecordTuple(name) => write_name(sink, name),
    }
}

/// Writes the operands of a container's begin.
fn write_begin<K: Sink>(sink: &mut K, head: Head, size: Option<usize>) -> Result<(), SinkError>
    ensures { WritesAll result (K.told sink.old)
        (tape.tape_head_bytes (seen_head head.entry) ++ tape.size_bytes size) (K.told sink.new) }
{
    write_head(sink, head)?;
    write_size(sink, size)
}

/// Writes a whole number.
fn write_int<K: Sink>(sink: &mut K, number: Int) -> Result<(), SinkError>
    ensures { WritesAll result (K.told sink.old)
        (tape.int_bytes (int_type number) (int_number number)) (K.told sink.new) }
{
    match number {
        Int::U8(number) => write_number(sink, u128::from(number)),
        Int::U16(number) => write_number(sink, u128::from(number)),
        Int::U32(number) => write_number(sink, u128::from(number)),
        Int::U64(number) => write_number(sink, u128::from(number)),
        Int::U128(number) => write_number(sink, number),
        Int::I8(number) => write_number(sink, zigzag(i128::from(number))),
        Int::I16(number) => write_number(sink, zigzag(i128::from(number))),
        Int::I32(number) => write_number(sink, zigzag(i128::from(number))),
        Int::I64(number) => write_number(sink, zigzag(i128::from(number))),
        Int::I128(number) => write_number(sink, zigzag(number)),
    }
}

/// Writes the operands of a call.
fn write_operands<K: Sink>(
    sink: &mut K,
    call: GroupedCall<'_, &str, &[u8]>,
) -> Result<(), SinkError>
    ensures { let said = grouped_call (λ text. text.now) (λ bytes. bytes.now) call.entry in
        WritesAll result (K.told sink.old) (tape.operands said) (K.told sink.new) }
{
    match call {
        GroupedCall::Null | GroupedCall::TextEnd | GroupedCall::BinaryEnd => write_all(sink, &[]),
        GroupedCall::Bool(value) => write_all(sink, if value { &[1] } else { &[0] }),
        GroupedCall::Int(number) => write_int(sink, number),
        GroupedCall::TextBegin(size) | GroupedCall::BinaryBegin(size) => write_size(sink, size),
        GroupedCall::TextFragment(Fragment::Borrowed(text) | Fragment::Computed(text)) => {
            write_block(sink, text.as_bytes())
        }
        GroupedCall::BinaryFragment(Fragment::Borrowed(bytes) | Fragment::Computed(bytes)) => {
            write_block(sink, bytes)
        }
        GroupedCall::EnumBegin(name) | GroupedCall::EnumEnd(name) => write_name(sink, name),
        GroupedCall::TaggedBegin(name) | GroupedCall::TaggedEnd(name) => write_name(sink, name),
        GroupedCall::Tag(name) => write_name(sink, name),
        GroupedCall::TagHint(tag) => write_block(sink, tag.text.as_bytes()),
        GroupedCall::Begin(head, size) => write_begin(sink, head, size),
        GroupedCall::End(head) => write_head(sink, head),
        GroupedCall::PartBegin(slot) | GroupedCall::PartEnd(slot) => write_slot(sink, slot),
    }
}

/// Writes the bytes of a call.
pub(crate) fn write_call<K: Sink>(
    sink: &mut K,
    call: GroupedCall<'_, &str, &[u8]>,
) -> Result<(), SinkError>
    ensures { let said = grouped_call (λ text. text.now) (λ bytes. bytes.now) call.entry in
        WritesAll result (K.told sink.old) (tape.call_bytes said) (K.told sink.new) }
{
    write_byte(sink, call_number(call))?;
    write_operands(sink, call)
}
