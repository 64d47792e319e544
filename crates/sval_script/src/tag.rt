//! Tags as fields.

ghost use Rattle.std.specs.Prelude.{◌≡◌, ◌<◌, ◌≤◌, Some, length, option_map};
ghost use Rattle.sval_label.specs.SeenTags.{seen_tag};
ghost use Rattle.sval_script.specs.Lines as script;
ghost use Rattle.sval_script.specs.Tags.{tag_of, tag_text, tag_table, texts_and_tags, tag_place, tag_text_at};

use crate::short::same;
use sval_label::Tag;

/// What a field says of a tag: none, or one of the ten names.
#[derive(Clone, Copy)]
pub(crate) enum TagField {
    /// No tag.
    Absent,
    RustOptionSome,
    RustOptionNone,
    RustUnit,
    Number,
    ConstantSize,
    ValueIdent,
    ValueOffset,
    JsonValue,
    JsonText,
    JsonNumber,
}

/// Each tag with its text, at the text's place. The other places hold any tag.
static TAGS: [(&'static [u8], TagField); 16] = [
    (b"NUMBER", TagField::Number),
    (b"CONSTANT_SIZE", TagField::ConstantSize),
    (b"NUMBER", TagField::Number),
    (b"NUMBER", TagField::Number),
    (b"JSON_VALUE", TagField::JsonValue),
    (b"JSON_NUMBER", TagField::JsonNumber),
    (b"VALUE_OFFSET", TagField::ValueOffset),
    (b"VALUE_IDENT", TagField::ValueIdent),
    (b"NUMBER", TagField::Number),
    (b"JSON_TEXT", TagField::JsonText),
    (b"RUST_OPTION_SOME", TagField::RustOptionSome),
    (b"RUST_UNIT", TagField::RustUnit),
    (b"RUST_OPTION_NONE", TagField::RustOptionNone),
    (b"NUMBER", TagField::Number),
    (b"NUMBER", TagField::Number),
    (b"NUMBER", TagField::Number),
];

/// The place of a text: another for each tag.
fn place(text: &[u8]) -> usize
    requires { 2 ≤ length text.now }
    ensures { result ≡ tag_place text.now }
{
    (2 * text[text.len() - 2] as usize + text.len() % 32) % 16
}

/// The table, whose rows are known by their texts and tags alone.
fn tags() -> &'static [(&'static [u8], TagField); 16]
    ensures { texts_and_tags result.now ≡ tag_table }
{
    &TAGS
}

/// The tag at a place, and its text.
fn row(place: usize) -> (&'static [u8], TagField)
    requires { place < 16 }
    ensures text { result.0.now ≡ tag_text_at place }
    ensures named { script.tag_named result.0.now ≡ Some (tag_text result.1) }
    ensures tag { tag_of result.1 ≡ Some (tag_text result.1) }
{
    let row = &tags()[place];
    (row.0, row.1)
}

impl TagField {
    /// The tag with this text.
    #[inline(never)]
    pub(crate) fn read(field: &[u8]) -> Option<TagField>
        ensures named { option_map tag_text result ≡ script.tag_named field.now }
        ensures tag { option_map tag_of result ≡ option_map Some (script.tag_named field.now) }
    {
        if field.len() < 2 {
            return None;
        }
        let (text, tag) = row(place(field));
        if same(text, field) { Some(tag) } else { None }
    }

    /// The tag with this text, or none for `-`.
    #[inline(always)]
    pub(crate) fn read_or_dash(field: &[u8]) -> Option<TagField>
        ensures { option_map tag_of result ≡ script.or_dash script.tag_named field.now }
    {
        match field {
            b"-" => Some(TagField::Absent),
            _ => TagField::read(field),
        }
    }

    /// The tag's text, which is empty where there is no tag.
    pub(crate) fn text(self) -> &'static str
        ensures { result.now ≡ tag_text self }
    {
        match self {
            TagField::Absent => "",
            TagField::RustOptionSome => "RUST_OPTION_SOME",
            TagField::RustOptionNone => "RUST_OPTION_NONE",
            TagField::RustUnit => "RUST_UNIT",
            TagField::Number => "NUMBER",
            TagField::ConstantSize => "CONSTANT_SIZE",
            TagField::ValueIdent => "VALUE_IDENT",
            TagField::ValueOffset => "VALUE_OFFSET",
            TagField::JsonValue => "JSON_VALUE",
            TagField::JsonText => "JSON_TEXT",
            TagField::JsonNumber => "JSON_NUMBER",
        }
    }

    /// The tag, if there is one.
    pub(crate) fn tag(self) -> Option<Tag>
        ensures { option_map seen_tag result ≡ tag_of self }
    {
        match self {
            TagField::Absent => None,
            _ => Some(Tag::new(self.text())),
        }
    }
}
