//! The fields of a line, each after its space.

ghost use Rattle.std.specs.Prelude.{◌≡◌, [], ◌∷◌, option_map};
ghost use Rattle.std.specs.Fmt.{signed_decimal};
ghost use Rattle.sval_label.specs.Calls as call;
ghost use Rattle.sval_label.specs.Grouped.{grouped_call, int_number, seen_head, seen_slot};
ghost use Rattle.sval_label.specs.SeenName.{seen_option_tag, seen_name};
ghost use Rattle.sval_label.specs.SeenIndex.{seen_index};
ghost use Rattle.sval_label.specs.Texts.{truth_text};
ghost use Rattle.sval_io.specs.Sinks.{WritesAll};
ghost use Rattle.sval_script.specs.Printed as line;
ghost use Rattle.sval_script.specs.Printing.{WritesFields, fields_of};

use crate::printer::digits::{format_index, write_hex};
use itoa::Buffer;
use sval_core::{Fragment, GroupedCall, Head, Index, Int, Label, Name, Slot, Tag};
use sval_io::{Sink, SinkError, write_all};

/// Writes a field.
fn write_field<K: Sink>(sink: &mut K, field: &[u8]) -> Result<(), SinkError>
    ensures { WritesFields result (K.told sink.old) (field.now ∷ []) (K.told sink.new) }
{
    write_all(sink, b" ")?;
    write_all(sink, field)
}

/// Writes the tag of a field after `:`, where it has one.
fn write_hint<K: Sink>(sink: &mut K, tag: Option<&Tag>) -> Result<(), SinkError>
    ensures { WritesAll result (K.told sink.old) (line.hint_text (seen_option_tag tag.entry)) (K.told sink.new) }
{
    let Some(tag) = tag else {
        return Ok(());
    };
    write_all(sink, b":")?;
    write_all(sink, tag.text.as_bytes())
}

/// Writes a size.
fn size_field<K: Sink>(sink: &mut K, size: Option<usize>) -> Result<(), SinkError>
    ensures { WritesFields result (K.told sink.old) (line.size_field size ∷ []) (K.told sink.new) }
{
    match size {
        Some(size) => write_field(sink, Buffer::new().format(size).as_bytes()),
        None => write_all(sink, b" -"),
    }
}

/// Writes bytes in hex.
fn hex_field<K: Sink>(sink: &mut K, bytes: &[u8]) -> Result<(), SinkError>
    ensures { WritesFields result (K.told sink.old) (line.hex_field bytes.now ∷ []) (K.told sink.new) }
{
    write_all(sink, b" =")?;
    write_hex(sink, bytes)
}

/// Writes a tag.
fn tag_field<K: Sink>(sink: &mut K, tag: Option<&Tag>) -> Result<(), SinkError>
    ensures { WritesFields result (K.told sink.old)
        (line.tag_field (seen_option_tag tag.entry) ∷ []) (K.told sink.new) }
{
    match tag {
        Some(tag) => write_field(sink, tag.text.as_bytes()),
        None => write_all(sink, b" -"),
    }
}

/// Writes a label and its tag.
fn label_field<K: Sink>(sink: &mut K, label: &Label) -> Result<(), SinkError>
    ensures { WritesFields result (K.told sink.old) (line.label_field label.now ∷ []) (K.told sink.new) }
{
    hex_field(sink, label.as_str().as_bytes())?;
    write_hint(sink, label.tag())
}

/// Writes an index and its tag.
fn index_field<K: Sink>(sink: &mut K, index: &Index) -> Result<(), SinkError>
    ensures { WritesFields result (K.told sink.old) (line.index_field (seen_index index.now) ∷ []) (K.told sink.new) }
{
    let mut buffer = Buffer::new();
    write_field(sink, format_index(&mut buffer, index).as_bytes())?;
    write_hint(sink, index.tag())
}

/// Writes the label of a name.
fn label_or_dash<K: Sink>(sink: &mut K, label: Option<&Label>) -> Result<(), SinkError>
    ensures { let seen = option_map (λ label. label.now) label.entry in
        WritesFields result (K.told sink.old) (line.or_dash_field line.label_field seen ∷ []) (K.told sink.new) }
{
    match label {
        Some(label) => label_field(sink, label),
        None => write_all(sink, b" -"),
    }
}

/// Writes the index of a name.
fn index_or_dash<K: Sink>(sink: &mut K, index: Option<&Index>) -> Result<(), SinkError>
    ensures { let seen = option_map (λ index. seen_index index.now) index.entry in
        WritesFields result (K.told sink.old) (line.or_dash_field line.index_field seen ∷ []) (K.told sink.new) }
{
    match index {
        Some(index) => index_field(sink, index),
        None => write_all(sink, b" -"),
    }
}

/// Writes the three fields of a name.
fn name_fields<K: Sink>(sink: &mut K, name: Name) -> Result<(), SinkError>
    ensures { WritesFields result (K.told sink.old) (line.name_fields (seen_name name.entry)) (K.told sink.new) }
{
    tag_field(sink, name.tag)?;
    label_or_dash(sink, name.label)?;
    index_or_dash(sink, name.index)
}

/// Writes a tag and a label.
fn record_fields<K: Sink>(sink: &mut K, tag: Option<&Tag>, label: &Label) -> Result<(), SinkError>
    ensures { let slot = call.Field (seen_option_tag tag.entry) label.now in
        WritesFields result (K.told sink.old) (line.slot_fields slot) (K.told sink.new) }
{
    tag_field(sink, tag)?;
    label_field(sink, label)
}

/// Writes a tag and an index.
fn tuple_fields<K: Sink>(sink: &mut K, tag: Option<&Tag>, index: &Index) -> Result<(), SinkError>
    ensures { let slot = call.Place (seen_option_tag tag.entry) (seen_index index.now) in
        WritesFields result (K.told sink.old) (line.slot_fields slot) (K.told sink.new) }
{
    tag_field(sink, tag)?;
    index_field(sink, index)
}

/// Writes a tag, a label and an index.
fn record_tuple_fields<K: Sink>(
    sink: &mut K,
    tag: Option<&Tag>,
    label: &Label,
    index: &Index,
) -> Result<(), SinkError>
    ensures { let slot = call.FieldPlace (seen_option_tag tag.entry) label.now (seen_index index.now) in
        WritesFields result (K.told sink.old) (line.slot_fields slot) (K.told sink.new) }
{
    record_fields(sink, tag, label)?;
    index_field(sink, index)
}

/// Writes the fields of a part's place.
fn slot_fields<K: Sink>(sink: &mut K, slot: Slot) -> Result<(), SinkError>
    ensures { WritesFields result (K.told sink.old) (line.slot_fields (seen_slot slot.entry)) (K.told sink.new) }
{
    match slot {
        Slot::Item | Slot::Key | Slot::Value => Ok(()),
        Slot::Field(tag, label) => record_fields(sink, tag, label),
        Slot::Place(tag, index) => tuple_fields(sink, tag, index),
        Slot::FieldPlace(tag, label, index) => record_tuple_fields(sink, tag, label, index),
    }
}

/// Writes the fields of a container's name.
fn head_fields<K: Sink>(sink: &mut K, head: Head) -> Result<(), SinkError>
    ensures { WritesFields result (K.told sink.old) (fields_of (call.End (seen_head head.entry))) (K.told sink.new) }
{
    match head {
        Head::Seq | Head::Map => Ok(()),
        Head::Record(name) | Head::Tuple(name) | Head::RecordTuple(name) => name_fields(sink, name),
    }
}

/// Writes the fields of a container's begin.
fn begin_fields<K: Sink>(sink: &mut K, head: Head, size: Option<usize>) -> Result<(), SinkError>
    ensures { let said = call.Begin (seen_head head.entry) size in
        WritesFields result (K.told sink.old) (fields_of said) (K.told sink.new) }
{
    head_fields(sink, head)?;
    size_field(sink, size)
}

/// Writes a truth value.
fn truth_field<K: Sink>(sink: &mut K, value: bool) -> Result<(), SinkError>
    ensures { WritesFields result (K.told sink.old) (truth_text value ∷ []) (K.told sink.new) }
{
    write_all(sink, if value { b" true" } else { b" false" })
}

/// Writes a whole number.
fn int_field<K: Sink>(sink: &mut K, number: Int) -> Result<(), SinkError>
    ensures { WritesFields result (K.told sink.old) (signed_decimal (int_number number) ∷ []) (K.told sink.new) }
{
    let mut buffer = Buffer::new();
    write_field(sink, number.format(&mut buffer).as_bytes())
}

/// Writes the fields of a call's line.
pub(crate) fn write_fields<K: Sink>(
    sink: &mut K,
    call: GroupedCall<'_, &str, &[u8]>,
) -> Result<(), SinkError>
    ensures { let said = grouped_call (λ text. text.now) (λ bytes. bytes.now) call.entry in
        WritesFields result (K.told sink.old) (fields_of said) (K.told sink.new) }
{
    match call {
        GroupedCall::Null | GroupedCall::TextEnd | GroupedCall::BinaryEnd => Ok(()),
        GroupedCall::Bool(value) => truth_field(sink, value),
        GroupedCall::Int(number) => int_field(sink, number),
        GroupedCall::TextBegin(size) | GroupedCall::BinaryBegin(size) => size_field(sink, size),
        GroupedCall::TextFragment(Fragment::Borrowed(text) | Fragment::Computed(text)) => {
            hex_field(sink, text.as_bytes())
        }
        GroupedCall::BinaryFragment(Fragment::Borrowed(bytes) | Fragment::Computed(bytes)) => {
            hex_field(sink, bytes)
        }
        GroupedCall::EnumBegin(name) | GroupedCall::EnumEnd(name) => name_fields(sink, name),
        GroupedCall::TaggedBegin(name) | GroupedCall::TaggedEnd(name) => name_fields(sink, name),
        GroupedCall::Tag(name) => name_fields(sink, name),
        GroupedCall::TagHint(tag) => write_field(sink, tag.text.as_bytes()),
        GroupedCall::Begin(head, size) => begin_fields(sink, head, size),
        GroupedCall::End(head) => head_fields(sink, head),
        GroupedCall::PartBegin(slot) | GroupedCall::PartEnd(slot) => slot_fields(sink, slot),
    }
}
