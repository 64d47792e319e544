//! What is kept of the names that begins say.

ghost use Rattle.std.specs.Prelude.{◌≡◌, Some, option_map};
ghost use Rattle.sval_label.specs.SeenTags.{seen_tag};
ghost use Rattle.sval_label.specs.SeenName.{seen_option_tag, seen_name};
ghost use Rattle.sval_label.specs.Equalities as equal;
ghost use Rattle.sval_core.specs.Trees.{plain_name, text_kind};
ghost use Rattle.sval_core.specs.SameNames as same;
ghost use Rattle.sval_core.specs.CheckerSteps.{may_hold};
ghost use Rattle.sval_check.specs.Kept.{parts_in, is_container_value, means_text};
ghost use Rattle.sval_check.specs.Frames.{seen_form};

use crate::frame::Form;
use sval_core::{Name, Tag};

/// Which parts a name has.
#[derive(Clone, Copy)]
pub(crate) struct NameParts {
    pub(crate) tag: bool,
    pub(crate) label: bool,
    pub(crate) index: bool,
}

/// A value whose begin says a name.
#[derive(Clone, Copy)]
pub(crate) enum NamedValue {
    /// A value with a name of its own.
    Tagged,
    /// An enum.
    Enum,
    /// A record.
    Record,
    /// A tuple.
    Tuple,
    /// A record that is a tuple too.
    RecordTuple,
}

impl NameParts {
    /// The parts that a name has.
    #[inline(always)]
    pub(crate) fn of(name: Name<'_>) -> NameParts
        ensures { result ≡ parts_in (plain_name (seen_name name.entry)) }
    {
        NameParts {
            tag: name.tag.is_some(),
            label: name.label.is_some(),
            index: name.index.is_some(),
        }
    }
}

impl NamedValue {
    /// Whether it is a container.
    #[inline(always)]
    pub(crate) fn is_container(self) -> bool
        ensures { result ≡ is_container_value self }
    {
        !matches!(self, NamedValue::Tagged | NamedValue::Enum)
    }
}

/// A value of this form may begin directly under a tag.
pub(crate) fn may_hold(tag: Option<Tag>, form: Form) -> bool
    ensures { result ≡ may_hold (text_kind (option_map seen_tag tag)) (seen_form form) }
{
    match tag {
        Some(tag) if means_text(tag) => matches!(form, Form::Text),
        _ => true,
    }
}

/// Text is meant in a way of its own under a tag.
#[inline(never)]
fn means_text(tag: Tag) -> bool
    ensures { result ≡ means_text (text_kind (Some (seen_tag tag))) }
{
    tag.text == "NUMBER"
        || tag.text == "JSON_VALUE"
        || tag.text == "JSON_TEXT"
        || tag.text == "JSON_NUMBER"
}

/// Two tags are both absent, or equal.
#[inline(always)]
pub(crate) fn same_tag(ended: Option<&Tag>, begun: Option<Tag>) -> bool
    ensures { result ≡ same.same_option equal.same_tag (seen_option_tag ended.entry) (option_map seen_tag begun) }
{
    match (ended, begun) {
        (None, None) => true,
        (Some(ended), Some(begun)) => ended.text == begun.text,
        _ => false,
    }
}
