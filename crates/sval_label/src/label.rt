//! Names as texts.

ghost use Rattle.std.specs.Prelude.{◌≡◌, None, Some, true, false, IfOk, IfSome, IsOk, string_bytes, option_map, is_some};
ghost use Rattle.std.specs.Bool.{OnTrue};
ghost use Rattle.sval_label.specs.SeenTags.{seen_tag, seen_ref_tag};

use crate::error::NoMemory;
use crate::tag::Tag;
use std::alloc::Global;
use std::hash::{Hash, Hasher};
use std::marker::Model;

/// Where a label's text is kept.
#[derive(Drop, Debug)]
enum LabelText<'computed> {
    Static(&'static str),
    Computed(&'computed str),
    Owned(String),
}

/// A name as a text: that of a field, a variant or a type.
///
/// It is seen as its text, its tag and whether it is static. Labels are equal, and hash alike, by their texts alone.
///
/// ```
/// let label = Label::new("id").with_tag(&tags::VALUE_IDENT);
/// assert_eq!(rt; label.as_str(), "id");
/// assert!(rt; label == Label::new_computed("id"));
/// ```
#[derive(Drop, Debug)]
pub struct Label<'computed> {
    text: LabelText<'computed>,
    tag: Option<Tag>,
}

impl<'computed> Model for Label<'computed> {
    ghost use Rattle.sval_label.specs.Calls as calls;

    ghost Value = { calls.Label };

    ghost use Rattle.sval_label.specs.SeenLabel.{seen_label};

    ghost view = { seen_label };
}

impl<'computed> Label<'computed> {
    /// A static label: its text lives as long as the program.
    pub fn new(label: &'static str) -> Label<'computed>
        ensures { result ≡ record { text = label.now; tag = None; is_static = true } }
    {
        Label {
            text: LabelText::Static(label),
            tag: None,
        }
    }

    /// A label over a text that lives for `'computed`. It isn't static.
    pub fn new_computed(label: &'computed str) -> Label<'computed>
        ensures { result ≡ record { text = label.now; tag = None; is_static = false } }
    {
        Label {
            text: LabelText::Computed(label),
            tag: None,
        }
    }

    /// A label that owns its text. It isn't static, and it takes no memory.
    pub fn new_owned(label: String) -> Label<'static>
        ensures { result ≡ record { text = string_bytes label; tag = None; is_static = false } }
    {
        Label {
            text: LabelText::Owned(label),
            tag: None,
        }
    }

    /// The text.
    pub fn as_str(&self) -> &str
        ensures { result.now ≡ self.now.text }
    {
        match &self.text {
            LabelText::Static(text) => text,
            LabelText::Computed(text) => text,
            LabelText::Owned(text) => text.as_str(),
        }
    }

    /// The text, exactly where this label is static.
    pub fn as_static_str(&self) -> Option<&'static str>
        ensures exactly { is_some result ≡ self.now.is_static }
        ensures text { IfSome result (λ text. text.now ≡ self.now.text) }
    {
        match &self.text {
            LabelText::Static(text) => Some(*text),
            _ => None,
        }
    }

    /// This label with this tag, in place of its own if it had one.
    pub fn with_tag(self, tag: &Tag) -> Self
        ensures { result ≡ record self.entry { tag = Some (seen_tag tag.now) } }
    {
        Label {
            text: self.text,
            tag: Some(*tag),
        }
    }

    /// The tag, if it has one.
    pub fn tag(&self) -> Option<&Tag>
        ensures { option_map seen_ref_tag result ≡ self.now.tag }
    {
        self.tag.as_ref()
    }

    /// This label with a text that it owns, or the same static one: of the same text, tag and staticness.
    ///
    /// [`NoMemory`] comes only where memory was wanting for the text, and never for a static label, which takes none.
    pub fn to_owned(&self, alloc: Global) -> Result<Label<'static>, NoMemory>
        ensures same { IfOk result (λ label. label ≡ self.now) }
        ensures static_needs_none { OnTrue self.now.is_static (IsOk result) }
    {
        let text = match &self.text {
            LabelText::Static(text) => LabelText::Static(*text),
            LabelText::Computed(text) => LabelText::Owned(owned(alloc, *text)?),
            LabelText::Owned(text) => LabelText::Owned(owned(alloc, text.as_str())?),
        };
        Ok(Label {
            text,
            tag: self.tag,
        })
    }

    /// This label with a text that it owns, or with its static one, as [`Label::to_owned`] gives it.
    ///
    /// [`NoMemory`] comes only where memory was wanting for the text, and never for a static label, which takes none.
    pub fn try_to_owned(&self, alloc: Global) -> Result<Label<'static>, NoMemory>
        ensures same { IfOk result (λ label. label ≡ self.now) }
        ensures static_needs_none { OnTrue self.now.is_static (IsOk result) }
    {
        self.to_owned(alloc)
    }

    /// A copy of this label, of the same lifetime, text, tag and staticness. A text that isn't static is copied.
    ///
    /// [`NoMemory`] comes only where memory was wanting for the text, and never for a static label, which takes none.
    pub fn try_clone(&self, alloc: Global) -> Result<Label<'computed>, NoMemory>
        ensures same { IfOk result (λ label. label ≡ self.now) }
        ensures static_needs_none { OnTrue self.now.is_static (IsOk result) }
    {
        self.to_owned(alloc)
    }
}

/// A copy of a text.
fn owned(alloc: Global, text: &str) -> Result<String, NoMemory>
    ensures { IfOk result (λ copy. string_bytes copy ≡ text.now) }
{
    Ok(String::from_str(alloc, text)?)
}

impl<'computed> PartialEq for Label<'computed> {
    ghost use Rattle.std.proofs.lemmas.Cmp.{nat_list_eq_equiv, on_equiv};
    ghost use Rattle.std.specs.Cmp.{partial_equiv_from_equiv};
    ghost use Rattle.sval_label.specs.Equalities.{same_label};

    ghost eq = { same_label };

    ghost laws = { partial_equiv_from_equiv (on_equiv (λ label. label.text) nat_list_eq_equiv) };

    fn eq(&self, other: &Label<'computed>) -> bool {
        self.as_str() == other.as_str()
    }
}

impl<'computed> Eq for Label<'computed> {
    ghost use Rattle.std.proofs.lemmas.Cmp.{nat_list_eq_equiv, on_equiv};

    ghost laws = { on_equiv (λ label. label.text) nat_list_eq_equiv };
}

impl<'computed> Hash for Label<'computed> {
    ghost use Rattle.std.proofs.Common.{rules};
    ghost use Rattle.std.specs.Cmp.Rules.{hashing};
    ghost use Rattle.sval_label.specs.Equalities.{label_writes};

    ghost hash_input = { label_writes };

    ghost respects_eq = { Prim.search (hashing, rules) };

    fn hash<H: Hasher>(&self, state: &mut H) {
        self.as_str().hash(state);
    }
}
