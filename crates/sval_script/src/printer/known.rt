//! Whether the tags of a call are among those that scripts name.

ghost use Rattle.std.specs.Prelude.{◌≡◌, ◌↔◌, IsTrue};
ghost use Rattle.sval_label.specs.Grouped.{grouped_call, seen_head, seen_slot};
ghost use Rattle.sval_label.specs.SeenName.{seen_option_tag, seen_name};
ghost use Rattle.sval_label.specs.SeenIndex.{seen_index};
ghost use Rattle.sval_label.specs.SeenTags.{seen_tag};
ghost use Rattle.sval_label.specs.Tags.{is_tag_name, IsTagName};
ghost use Rattle.sval_core.specs.Real.{head_name, HasScriptTags, SlotHasScriptTags};
ghost use Rattle.sval_script.specs.Printing.{HasKnownTags};

use crate::tag::TagField;
use sval_core::{GroupedCall, Head, Index, Label, Name, Slot, Tag};

/// Whether a tag is one of the ten.
fn is_named(tag: &Tag) -> bool
    ensures { result ≡ is_tag_name (seen_tag tag.now) }
{
    TagField::read(tag.text.as_bytes()).is_some()
}

/// Whether a tag is one of the ten, where it is given.
fn knows_tag(tag: Option<&Tag>) -> bool
    ensures { IsTrue result ↔ IsTagName (seen_option_tag tag.entry) }
{
    match tag {
        Some(tag) => is_named(tag),
        None => true,
    }
}

/// Whether the label's tag is.
fn knows_label(label: &Label) -> bool
    ensures { IsTrue result ↔ IsTagName label.now.tag }
{
    knows_tag(label.tag())
}

/// Whether the index's tag is.
fn knows_index(index: &Index) -> bool
    ensures { IsTrue result ↔ IsTagName (seen_index index.now).tag }
{
    knows_tag(index.tag())
}

/// Whether all tags of a name are.
fn knows_name(name: Name) -> bool
    ensures { IsTrue result ↔ HasScriptTags (seen_name name.entry) }
{
    knows_tag(name.tag) && name.label.is_none_or(knows_label) && name.index.is_none_or(knows_index)
}

/// Whether all tags of a container's head are.
fn knows_head(head: Head) -> bool
    ensures { IsTrue result ↔ HasScriptTags (head_name (seen_head head.entry)) }
{
    match head {
        Head::Seq | Head::Map => true,
        Head::Record(name) | Head::Tuple(name) | Head::RecordTuple(name) => knows_name(name),
    }
}

/// Whether all tags of a part's place are.
fn knows_slot(slot: Slot) -> bool
    ensures { IsTrue result ↔ SlotHasScriptTags (seen_slot slot.entry) }
{
    match slot {
        Slot::Item | Slot::Key | Slot::Value => true,
        Slot::Field(tag, label) => knows_tag(tag) && knows_label(label),
        Slot::Place(tag, index) => knows_tag(tag) && knows_index(index),
        Slot::FieldPlace(tag, label, index) => {
            knows_tag(tag) && knows_label(label) && knows_index(index)
        }
    }
}

/// Whether all tags of a call are.
pub(crate) fn knows_tags(call: GroupedCall<'_, &str, &[u8]>) -> bool
    ensures { IsTrue result ↔ HasKnownTags (grouped_call (λ text. text.now) (λ bytes. bytes.now) call.entry) }
{
    match call {
        GroupedCall::EnumBegin(name) | GroupedCall::EnumEnd(name) => knows_name(name),
        GroupedCall::TaggedBegin(name) | GroupedCall::TaggedEnd(name) => knows_name(name),
        GroupedCall::Tag(name) => knows_name(name),
        GroupedCall::TagHint(tag) => is_named(tag),
        GroupedCall::Begin(head, _) | GroupedCall::End(head) => knows_head(head),
        GroupedCall::PartBegin(slot) | GroupedCall::PartEnd(slot) => knows_slot(slot),
        _ => true,
    }
}
