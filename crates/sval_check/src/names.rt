//! The names that begins say, kept until their ends.

ghost use Rattle.std.specs.Prelude.{◌≡◌, [], is_ok, None, if◌then◌else◌};
ghost use Rattle.sval_label.specs.SeenName.{seen_name, name_of};
ghost use Rattle.sval_core.specs.SameNames as same;
ghost use Rattle.sval_core.specs.Trees.{plain_name};
ghost use Rattle.sval_check.specs.Kept.{with_name, innermost_name};
ghost use Rattle.sval_check.specs.Frames.{names_around};

use crate::frame::Frame;
use crate::indexes::Indexes;
use crate::kept::{NameParts, same_tag};
use crate::labels::Labels;
use crate::tags::Tags;
use std::alloc::Global;
use sval_core::{Index, Label, Name, NoMemory, Tag};

/// The names of the begins that have no end yet, by their parts, the innermost first. A part that a name doesn't have
/// takes no memory.
#[derive(Drop)]
pub(crate) struct Names {
    pub(crate) tags: Tags,
    pub(crate) labels: Labels,
    pub(crate) indexes: Indexes,
}

impl Names {
    /// No name, which takes no memory yet.
    pub(crate) fn new(alloc: Global) -> Self
        ensures tags { result.tags ≡ [] }
        ensures labels { result.labels ≡ [] }
        ensures indexes { result.indexes ≡ [] }
    {
        Names {
            tags: Tags::new(alloc),
            labels: Labels::new(alloc),
            indexes: Indexes::new(alloc),
        }
    }

    /// Keeps a name, which has these parts.
    #[inline(always)]
    pub(crate) fn keep(
        &mut self,
        tag: Option<&Tag>,
        label: Option<&Label<'_>>,
        index: Option<&Index>,
    ) -> Result<(), NoMemory>
        ensures { let name = plain_name (name_of tag.entry label.entry index.entry) in
            self.new ≡ (if is_ok result then with_name name self.old else self.old) }
    {
        self.labels.put(label)?;
        match self.keep_tags(tag, index) {
            Ok(()) => Ok(()),
            Err(wanting) => {
                self.labels.take(label.is_some());
                Err(wanting)
            }
        }
    }

    /// Keeps a name without a label, which has these parts.
    #[inline(always)]
    fn keep_tags(&mut self, tag: Option<&Tag>, index: Option<&Index>) -> Result<(), NoMemory>
        ensures { let name = name_of tag.entry None index.entry in
            self.new ≡ (if is_ok result then with_name name self.old else self.old) }
    {
        self.tags.put(tag)?;
        match self.indexes.put(index) {
            Ok(()) => Ok(()),
            Err(wanting) => {
                self.tags.take(tag.is_some());
                Err(wanting)
            }
        }
    }

    /// Keeps what the innermost frame said no longer.
    #[inline(always)]
    pub(crate) fn let_go(&mut self, frame: Frame)
        ensures { self.new ≡ names_around frame self.old }
    {
        match frame {
            Frame::Tagged(parts)
            | Frame::Enum(parts)
            | Frame::Record(parts)
            | Frame::Tuple(parts)
            | Frame::RecordTuple(parts) => {
                self.tags.take(parts.tag);
                self.labels.take(parts.label);
                self.indexes.take(parts.index);
            }
            Frame::Field(has_tag) => {
                self.tags.take(has_tag);
                self.labels.take(true);
            }
            Frame::Place(has_tag) => {
                self.tags.take(has_tag);
                self.indexes.take(true);
            }
            Frame::FieldPlace(has_tag) => {
                self.tags.take(has_tag);
                self.labels.take(true);
                self.indexes.take(true);
            }
            _ => {}
        }
    }

    /// A name is the innermost one, which has these parts.
    #[inline(always)]
    pub(crate) fn is_name(&self, parts: NameParts, name: Name<'_>) -> bool
        ensures { result ≡ same.same_name (seen_name name.entry) (innermost_name parts self.now) }
    {
        same_tag(name.tag, self.tags.top(parts.tag))
            && self.labels.are(parts.label, name.label)
            && self.indexes.are(parts.index, name.index)
    }
}
