//! Calls with static labels, which scripts don't have, and which a buffer keeps by reference.

use crate::cases::{must, push, shows};
use std::alloc::Global;
use std::fmt::Write;
use std::process::Abort;
use sval_buffer::ValueBuf;
use sval_core::{Call, Index, Label, Name, Stream, Tag};

/// Calls, with a blank line between the last for one buffer and the first for the next.
///
/// A line is a call's word, and then its tag, its label, its index and its size. `-` says that there is none, and so
/// does the line's end. A label is static, and computed where it begins with `=`. A label's or an index's own tag
/// follows a colon. After `clear` the buffer has forgotten the calls before.
const CALLS: &'static str = r#"
# Names with static labels, beside a computed one.
enum_begin RUST_UNIT kind:VALUE_IDENT -2:VALUE_OFFSET
tagged_begin RUST_UNIT =width
tag RUST_UNIT =width
tag RUST_UNIT width
tag RUST_UNIT width
tagged_end RUST_UNIT =width
enum_end RUST_UNIT kind:VALUE_IDENT -2:VALUE_OFFSET
record_begin RUST_UNIT =width - 1
record_value_begin RUST_UNIT kind:VALUE_IDENT
tag_hint NUMBER
u128 - - - 7
record_value_end RUST_UNIT kind:VALUE_IDENT
record_end RUST_UNIT =width

# Calls with the same static label, before and after a buffer is cleared.
enum_begin RUST_UNIT id
enum_end RUST_UNIT id
tag RUST_UNIT id
tuple_begin RUST_UNIT id - 1
tuple_end RUST_UNIT id
tuple_begin RUST_UNIT id
tuple_end RUST_UNIT id
tuple_begin RUST_UNIT id - 1
tuple_end RUST_UNIT id
clear
enum_begin RUST_UNIT id
enum_end RUST_UNIT id
enum_begin RUST_UNIT id
enum_end RUST_UNIT id

# Hints of a tag of its own, before a sequence, and inside it.
tag_hint test
seq_begin - - - 1
tag_hint test
seq_value_begin
false
seq_value_end
seq_end

# A hint before an enum that holds a tag.
tag_hint test
enum_begin test A 1
tag test A 1
enum_end test A 1

# A record of two fields, with a tag of its own and on its first field.
record_begin test a 1 2
record_value_begin test a
false
record_value_end test a
record_value_begin - b
true
record_value_end - b
record_end test a 1

# A tuple of two items, with a tag of its own and on its first item.
tuple_begin test a 1 2
tuple_value_begin test - 0
false
tuple_value_end test - 0
tuple_value_begin - - 1
true
tuple_value_end - - 1
tuple_end test a 1

# A record tuple of one field, with a tag of its own and on its field.
record_tuple_begin test a 0 1
record_tuple_value_begin test a 0
false
record_tuple_value_end test a 0
record_tuple_end test a 0
"#;

/// A field, if it isn't `-`, and the tag behind its colon.
fn field(text: Option<&'static str>) -> (Option<&'static str>, Option<Tag>) {
    match text {
        None | Some("-") => (None, None),
        Some(text) => match text.split_once(':') {
            Some((text, tag)) => (Some(text), Some(Tag { text: tag })),
            None => (Some(text), None),
        },
    }
}

/// The tag of a field.
fn tag_of(text: Option<&'static str>) -> Option<Tag> {
    let (text, _tag) = field(text);
    Some(Tag { text: text? })
}

/// The label of a field.
fn label_of(text: Option<&'static str>) -> Option<Label<'static>> {
    let (text, tag) = field(text);
    let text = text?;
    let label = match text.strip_prefix("=") {
        Some(computed) => Label::new_computed(computed),
        None => Label::new(text),
    };
    match tag {
        Some(tag) => Some(label.with_tag(&tag)),
        None => Some(label),
    }
}

/// The index of a field.
fn index_of(rt: &impl Abort, text: Option<&'static str>) -> Option<Index> {
    let (text, tag) = field(text);
    let index = Index::new_i64(must(rt, text?.parse::<i64>()));
    match tag {
        Some(tag) => Some(index.with_tag(&tag)),
        None => Some(index),
    }
}

/// The size of a field.
fn size_of(rt: &impl Abort, text: Option<&'static str>) -> Option<usize> {
    Some(must(rt, text?.parse::<usize>()))
}

/// The call of a word.
fn call_of<'c>(word: &str, name: Name<'c>, size: Option<usize>) -> Option<Call<'static, 'c>> {
    let call = match word {
        "true" => Call::Bool(true),
        "false" => Call::Bool(false),
        "tag" => Call::Tag(name),
        "seq_begin" => Call::SeqBegin(size),
        "seq_value_begin" => Call::SeqValueBegin,
        "seq_value_end" => Call::SeqValueEnd,
        "seq_end" => Call::SeqEnd,
        "enum_begin" => Call::EnumBegin(name),
        "enum_end" => Call::EnumEnd(name),
        "tagged_begin" => Call::TaggedBegin(name),
        "tagged_end" => Call::TaggedEnd(name),
        _ => return part_of(word, name, size),
    };
    Some(call)
}

/// The call of a word of records and tuples.
fn part_of<'c>(word: &str, name: Name<'c>, size: Option<usize>) -> Option<Call<'static, 'c>> {
    let call = match word {
        "record_begin" => Call::RecordBegin(name, size),
        "record_end" => Call::RecordEnd(name),
        "tuple_begin" => Call::TupleBegin(name, size),
        "tuple_end" => Call::TupleEnd(name),
        "record_tuple_begin" => Call::RecordTupleBegin(name, size),
        "record_tuple_end" => Call::RecordTupleEnd(name),
        "tag_hint" => Call::TagHint(name.tag?),
        "u128" => Call::U128(size? as u128),
        _ => return field_of(word, name),
    };
    Some(call)
}

/// The call of a word of the fields of records and tuples, where its label and its index are there.
fn field_of<'c>(word: &str, name: Name<'c>) -> Option<Call<'static, 'c>> {
    let tag = name.tag;
    let call = match (word, name.label, name.index) {
        ("record_value_begin", Some(label), _) => Call::RecordValueBegin(tag, label),
        ("record_value_end", Some(label), _) => Call::RecordValueEnd(tag, label),
        ("tuple_value_begin", _, Some(index)) => Call::TupleValueBegin(tag, index),
        ("tuple_value_end", _, Some(index)) => Call::TupleValueEnd(tag, index),
        ("record_tuple_value_begin", Some(label), Some(index)) => {
            Call::RecordTupleValueBegin(tag, label, index)
        }
        ("record_tuple_value_end", Some(label), Some(index)) => {
            Call::RecordTupleValueEnd(tag, label, index)
        }
        _ => return None,
    };
    Some(call)
}

/// Captures the call of a line, and adds it to those that were captured, as `Debug` lists them.
fn capture(
    rt: &impl Abort,
    buffer: &mut ValueBuf<'static>,
    listed: &mut String,
    line: &'static str,
) {
    let mut fields = line.split(' ');
    let word = fields.next().unwrap_or("");
    let tag = tag_of(fields.next());
    let label = label_of(fields.next());
    let index = index_of(rt, fields.next());
    let size = size_of(rt, fields.next());
    let name = Name {
        tag: tag.as_ref(),
        label: label.as_ref(),
        index: index.as_ref(),
    };
    let call = must(rt, call_of(word, name, size).ok_or(line));
    list(rt, listed, call);
    must(rt, buffer.take(call));
}

/// Adds a call to those that are listed, as `Debug` lists them.
fn list(rt: &impl Abort, listed: &mut String, call: Call<'_, '_>) {
    push(rt, listed, if listed.is_empty() { "[" } else { ", " });
    must(rt, write!(listed, "{call:?}"));
}

/// Compares the calls that a buffer makes again with those that it captured, as `Debug` lists both.
fn makes_again(rt: &impl Abort, alloc: Global, buffer: &ValueBuf<'static>, listed: &str) {
    let due = must(rt, [listed, "]"].concat(alloc));
    shows(rt, format!(in alloc; "{buffer:?}"), &due);
}

/// Captures calls in a buffer, and compares what it makes again where it is cleared, and of the last.
fn try_calls(rt: &impl Abort, alloc: Global, calls: &'static str) {
    let mut buffer: ValueBuf<'static> = ValueBuf::new(alloc);
    let mut listed = String::new(alloc);
    for line in calls.lines() {
        if line == "clear" {
            makes_again(rt, alloc, &buffer, &listed);
            buffer.clear();
            listed.clear();
        } else if !line.is_empty() && !line.starts_with('#') {
            capture(rt, &mut buffer, &mut listed, line);
        }
    }
    makes_again(rt, alloc, &buffer, &listed);
}

#[test]
fn makes_static_labels_and_own_tags_again(rt: HostRuntime) {
    for calls in CALLS.split("\n\n") {
        try_calls(&rt, rt.alloc(), calls);
    }
}
