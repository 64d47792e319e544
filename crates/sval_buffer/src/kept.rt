//! A call with a name, as it is kept.

ghost use Rattle.std.specs.Prelude.{◌≡◌, IfOk, option_map, string_bytes};
ghost use Rattle.std.specs.Bool.{Decides};
ghost use Rattle.sval_label.specs.SeenTags.{seen_tag};
ghost use Rattle.sval_label.specs.SeenIndex.{seen_index};
ghost use Rattle.sval_label.specs.SeenName.{seen_name, seen_option_tag};
ghost use Rattle.sval_buffer.specs.SeenNames.{named_call, HasName, stored_label, stored_name, kept_call, kept_text, kept_static, TextStands, LabelStands, OptionStands, NameStands, StoreGrows};

use crate::named::NamedKind;
use sval_core::{Index, Label, Name, NoMemory, Tag};

/// Where the text of a label is kept.
#[derive(Clone, Copy)]
pub(crate) enum KeptText {
    /// It lives as long as the program.
    Static(&'static str),
    /// In the store of texts, from the first place up to the second.
    Stored(usize, usize),
}

/// A label, as it is kept.
#[derive(Clone, Copy)]
pub(crate) struct KeptLabel {
    text: KeptText,
    tag: Option<Tag>,
}

/// A call with a name, as it is kept.
#[derive(Clone, Copy)]
pub(crate) struct NamedCall {
    pub(crate) kind: NamedKind,
    tag: Option<Tag>,
    pub(crate) label: Option<KeptLabel>,
    index: Option<Index>,
}

impl NamedCall {
    /// The name, with its label as it was.
    pub(crate) fn name<'c>(&'c self, label: Option<&'c Label<'c>>) -> Name<'c>
        ensures { seen_name result ≡ record {
          tag = option_map seen_tag self.now.tag;
          label = option_map (λ label. label.now) label.entry;
          index = option_map seen_index self.now.index;
        } }
    {
        Name {
            tag: self.tag.as_ref(),
            label,
            index: self.index.as_ref(),
        }
    }

    /// It is of this kind and has this name.
    pub(crate) fn is_same(&self, texts: &str, kind: NamedKind, name: &Name<'_>) -> bool
        requires { OptionStands texts.now self.now.label }
        ensures { Decides result
            ((self.now.kind ≡ kind) × (stored_name texts.now self.now ≡ seen_name name.now)) }
    {
        self.kind == kind
            && is_option_label(texts, &self.label, name.label)
            && is_index(&self.index, name.index)
            && same_tag(self.tag.as_ref(), name.tag)
    }
}

/// A call with a name, whose label is copied into the store of texts.
pub(crate) fn keep(
    texts: &mut String,
    kind: NamedKind,
    name: Name<'_>,
) -> std::result::Result<NamedCall, NoMemory>
    requires { HasName kind (seen_name name) }
    ensures grows { StoreGrows (string_bytes texts.old) (string_bytes texts.new) }
    ensures stands { IfOk result (NameStands (string_bytes texts.new)) }
    ensures kept { let made = named_call kind (seen_name name.entry) in
        IfOk result (λ call. kept_call (string_bytes texts.new) call ≡ made) }
{
    let label = match name.label {
        Some(label) => Some(keep_label(texts, label)?),
        None => None,
    };
    Ok(NamedCall {
        kind,
        tag: name.tag.copied(),
        label,
        index: name.index.copied(),
    })
}

/// A label whose text is copied into the store of texts, unless it is static.
fn keep_label(texts: &mut String, label: &Label<'_>) -> std::result::Result<KeptLabel, NoMemory>
    ensures grows { StoreGrows (string_bytes texts.old) (string_bytes texts.new) }
    ensures stands { IfOk result (LabelStands (string_bytes texts.new)) }
    ensures kept { IfOk result (λ kept. stored_label (string_bytes texts.new) kept ≡ label.now) }
{
    let tag = label.tag().copied();
    match label.as_static_str() {
        Some(text) => Ok(KeptLabel {
            text: KeptText::Static(text),
            tag,
        }),
        None => {
            let start = texts.len();
            texts.push_str(label.as_str())?;
            Ok(KeptLabel {
                text: KeptText::Stored(start, texts.len()),
                tag,
            })
        }
    }
}

/// A label that is kept, if there is one, as it was.
pub(crate) fn shown_label<'a>(texts: &'a str, kept: &Option<KeptLabel>) -> Option<Label<'a>>
    requires { OptionStands texts.now kept.now }
    ensures { result ≡ option_map (stored_label texts.now) kept.now }
{
    match kept {
        Some(label) => Some(shown(texts, label)),
        None => None,
    }
}

/// A label that is kept, as it was.
fn shown<'a>(texts: &'a str, kept: &KeptLabel) -> Label<'a>
    requires { LabelStands texts.now kept.now }
    ensures { result ≡ stored_label texts.now kept.now }
{
    let label = match kept.text {
        KeptText::Static(text) => Label::new(text),
        KeptText::Stored(start, end) => Label::new_computed(&texts[start..end]),
    };
    match &kept.tag {
        Some(tag) => label.with_tag(tag),
        None => label,
    }
}

/// A label that is kept, or none, is this one.
fn is_option_label(texts: &str, kept: &Option<KeptLabel>, label: Option<&Label<'_>>) -> bool
    requires { OptionStands texts.now kept.now }
    ensures { Decides result
        (option_map (stored_label texts.now) kept.now ≡ option_map (λ label. label.now) label.entry) }
{
    match (kept, label) {
        (None, None) => true,
        (Some(kept), Some(label)) => is_label(texts, kept, label),
        _ => false,
    }
}

/// A label that is kept is this one, by its text, its tag and whether it is static.
fn is_label(texts: &str, kept: &KeptLabel, label: &Label<'_>) -> bool
    requires { LabelStands texts.now kept.now }
    ensures { Decides result (stored_label texts.now kept.now ≡ label.now) }
{
    is_text(texts, kept.text, label) && same_tag(kept.tag.as_ref(), label.tag())
}

/// A text that is kept is that of this label, and static exactly where this label is.
fn is_text(texts: &str, kept: KeptText, label: &Label<'_>) -> bool
    requires { TextStands texts.now kept }
    ensures { Decides result
        ((kept_text texts.now kept ≡ label.now.text) × (kept_static kept ≡ label.now.is_static)) }
{
    match (kept, label.as_static_str()) {
        (KeptText::Static(kept), Some(text)) => kept == text,
        (KeptText::Stored(start, end), None) => &texts[start..end] == label.as_str(),
        _ => false,
    }
}

/// An index that is kept, or none, is this one, by its number and its tag.
fn is_index(kept: &Option<Index>, index: Option<&Index>) -> bool
    ensures { Decides result
        (option_map seen_index kept.now ≡ option_map (λ index. seen_index index.now) index.entry) }
{
    match (kept, index) {
        (None, None) => true,
        (Some(kept), Some(index)) => kept == index && same_tag(kept.tag(), index.tag()),
        _ => false,
    }
}

/// Two tags are both absent, or equal.
fn same_tag(kept: Option<&Tag>, tag: Option<&Tag>) -> bool
    ensures { Decides result (seen_option_tag kept.entry ≡ seen_option_tag tag.entry) }
{
    match (kept, tag) {
        (None, None) => true,
        (Some(kept), Some(tag)) => kept.text == tag.text,
        _ => false,
    }
}
