//! What is appended.

ghost use Rattle.std.specs.Prelude.{◌≡◌, ◌++◌, codes, IfSome, option_map};
ghost use Rattle.sval_json.specs.Escape.{escaped};
ghost use Rattle.sval_json.specs.Json.{comma, compact, key_text};
ghost use Rattle.sval_json.specs.Shape.{field_key, is_identifier, is_none_tag, own};
ghost use Rattle.sval_tape.specs.ReadCalls.{label_read, name_read, tag_read};

use crate::read_call::{LabelRead, NameRead, TagRead};
use sval_io::{VecSink, write_in_place};
use sval_json::escape::{first_escape, write_escaped};

/// Appends bytes, if there is memory.
#[inline(always)]
pub(super) fn put(out: &mut VecSink, bytes: &[u8]) -> Option<()>
    ensures { IfSome result (λ done. out.new.bytes ≡ out.old.bytes ++ bytes.now) }
{
    write_in_place(out, bytes).ok()
}

/// Appends a text with its escapes, if there is memory.
#[inline(always)]
pub(super) fn put_escaped(out: &mut VecSink, text: &[u8]) -> Option<()>
    ensures { IfSome result (λ done. out.new.bytes ≡ out.old.bytes ++ escaped text.now) }
{
    if first_escape(text) == text.len() {
        return put(out, text);
    }
    write_escaped(out, text).ok()
}

/// Whether the label under this tag needs no escapes.
#[inline(always)]
fn is_ident(tag: Option<TagRead>) -> bool
    ensures { result ≡ is_identifier (option_map tag_read tag) }
{
    matches!(tag, Some(TagRead::ValueIdent))
}

/// Whether this tag says that there is no value.
#[inline(always)]
fn is_none(tag: Option<TagRead>) -> bool
    ensures { result ≡ is_none_tag (option_map tag_read tag) }
{
    matches!(tag, Some(TagRead::RustOptionNone))
}

/// Appends a comma before each item but the first.
#[inline(always)]
pub(super) fn put_comma(first: bool, out: &mut VecSink) -> Option<()>
    ensures { IfSome result (λ done. out.new.bytes ≡ out.old.bytes ++ comma first) }
{
    if first { Some(()) } else { put(out, b",") }
}

/// Appends a field's key, with a comma before each but the first.
#[inline(always)]
pub(super) fn put_key(first: bool, label: LabelRead<'_>, out: &mut VecSink) -> Option<()>
    ensures { IfSome result (λ done. out.new.bytes
        ≡ out.old.bytes ++ comma first ++ key_text (field_key (label_read label.entry)) ++ codes ":") }
{
    if first {
        put(out, b"\"")?;
    } else {
        put(out, b",\"")?;
    }
    if is_ident(label.tag) {
        put(out, label.text.as_bytes())?;
    } else {
        put_escaped(out, label.text.as_bytes())?;
    }
    put(out, b"\":")
}

/// Appends what stands for a name by itself, if it has a label or says that there is no value.
#[inline(always)]
pub(super) fn put_own(name: NameRead<'_>, out: &mut VecSink) -> Option<()>
    ensures { IfSome result (λ done. out.new.bytes ≡ out.old.bytes ++ compact (own (name_read name.entry))) }
{
    if is_none(name.tag) {
        return put(out, b"null");
    }
    let Some(label) = name.label else {
        return None;
    };
    put(out, b"\"")?;
    put_escaped(out, label.text.as_bytes())?;
    put(out, b"\"")
}
