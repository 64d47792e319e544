//! What the tags and names of calls mean for a format: how a text is meant, and what is written for a name.
//!
//! The writer of JSON goes by these, and so does each format that packs values as JSON does, such as CBOR.

ghost use Rattle.std.specs.Prelude.{◌≡◌, Some, None, is_some, option_map};
ghost use Rattle.std.specs.Fmt.{signed_decimal};
ghost use Rattle.sval_label.specs.SeenName.{seen_option_tag};
ghost use Rattle.sval_label.specs.SeenTags.{seen_tag};
ghost use Rattle.sval_core.specs.Trees.{text_kind};
ghost use Rattle.sval_json.specs.Marks.{seen_kind, seen_option_index, seen_handle};
ghost use Rattle.sval_json.specs.Shape.{handle_of, is_none_tag, is_identifier};

use crate::tags::{JSON_NUMBER, JSON_TEXT, JSON_VALUE};
use sval_core::tags::{NUMBER, RUST_OPTION_NONE, VALUE_IDENT};
use sval_core::{Index, Label, Tag};

/// How a text under a tag is meant.
#[derive(Clone, Copy, Debug, PartialEq, Eq)]
pub enum TextKind {
    /// As a text.
    Ordinary,
    /// As a number in sval's format, under [`NUMBER`].
    Number,
    /// As the JSON of a value, under [`JSON_VALUE`].
    JsonValue,
    /// As a text that is escaped already, under [`JSON_TEXT`].
    JsonText,
    /// As a number of RFC 8259, section 6, under [`JSON_NUMBER`].
    JsonNumber,
}

/// How a text under a tag is meant: by one of four tags, and as a text under any other, or none.
///
/// ```
/// assert_eq!(rt; text_kind(Some(&tags::NUMBER)), TextKind::Number);
/// assert_eq!(rt; text_kind(None), TextKind::Ordinary);
/// ```
pub fn text_kind(tag: Option<&Tag>) -> TextKind
    ensures { seen_kind result ≡ text_kind (seen_option_tag tag.entry) }
{
    match tag {
        Some(tag) => kind_of(*tag),
        None => TextKind::Ordinary,
    }
}

/// How a text under this tag is meant.
fn kind_of(tag: Tag) -> TextKind
    ensures { seen_kind result ≡ text_kind (Some (seen_tag tag)) }
{
    match tag {
        NUMBER => TextKind::Number,
        JSON_VALUE => TextKind::JsonValue,
        JSON_TEXT => TextKind::JsonText,
        JSON_NUMBER => TextKind::JsonNumber,
        _ => TextKind::Ordinary,
    }
}

/// Whether a tag says that the value of its name is none: `RUST_OPTION_NONE`.
pub fn is_none(tag: Option<&Tag>) -> bool
    ensures { result ≡ is_none_tag (seen_option_tag tag.entry) }
{
    matches!(tag, Some(&RUST_OPTION_NONE))
}

/// Whether a tag says that its label is an identifier, which needs no escape: `VALUE_IDENT`.
pub fn is_ident(tag: Option<&Tag>) -> bool
    ensures { result ≡ is_identifier (seen_option_tag tag.entry) }
{
    matches!(tag, Some(&VALUE_IDENT))
}

/// The number of an index that stands for a name, where it fits an `i64`.
pub fn number_of(index: Option<&Index>) -> Option<i64>
    ensures { option_map signed_decimal result ≡ handle_of None (seen_option_index index.entry) }
{
    match index {
        Some(index) => index.to_i64(),
        None => None,
    }
}

/// Whether something stands for a name in front of a value: its label, or else its index where [`number_of`] gives one.
pub fn has_handle(label: Option<&Label>, index: Option<&Index>) -> bool
    ensures { result ≡ is_some (seen_handle label.entry index.entry) }
{
    label.is_some() || number_of(index).is_some()
}
