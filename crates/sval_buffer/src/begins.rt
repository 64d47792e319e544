//! The begin of each kind of container in a captured value.
//!
//! A function clears room at its entry for all that it may build, whichever of it a call needs. So each kind of
//! container has a function of its own, which clears no more than this kind needs.

ghost use Rattle.std.specs.Prelude.{true};
ghost use Rattle.sval_label.specs.Calls as calls;
ghost use Rattle.sval_label.specs.Grouped.{seen_head, seen_slot};
ghost use Rattle.sval_label.specs.SeenName.{name_of, seen_name};
ghost use Rattle.sval_buffer.specs.Forest.{Becomes, begun};
ghost use Rattle.sval_buffer.specs.Capture.{CapturesBy};
ghost use Rattle.sval_buffer.specs.SeenNames.{HasParts, named_head, named_slot};

use crate::error::ErrorKind;
use crate::named::{CallStore, NamedHead, NamedKind, NamedSlot};
use crate::part::Begin;
use crate::parts::Parts;
use sval_core::{Head, Index, Label, Name, Slot, Tag};

impl<'sval, N: CallStore> Parts<'sval, N> {
    /// Begins an enum.
    pub(crate) fn begin_enum(&mut self, name: Name<'_>) -> Result<(), ErrorKind>
        ensures { let begin = calls.EnumBegin (seen_name name.entry) in
            CapturesBy (λ _. true) (λ f. Becomes (begun begin f)) self.old result self.new }
    {
        self.begin_named(NamedKind::Enum, name)
    }

    /// Begins a value with a name of its own.
    pub(crate) fn begin_tagged(&mut self, name: Name<'_>) -> Result<(), ErrorKind>
        ensures { let begin = calls.TaggedBegin (seen_name name.entry) in
            CapturesBy (λ _. true) (λ f. Becomes (begun begin f)) self.old result self.new }
    {
        self.begin_named(NamedKind::Tagged, name)
    }

    /// Begins a container with a size.
    pub(crate) fn begin_head(
        &mut self,
        head: Head<'_>,
        size: Option<usize>,
    ) -> Result<(), ErrorKind>
        ensures { let begin = calls.Begin (seen_head head.entry) size in
            CapturesBy (λ _. true) (λ f. Becomes (begun begin f)) self.old result self.new }
    {
        match head {
            Head::Seq => self.begin_seq(size),
            Head::Map => self.begin_map(size),
            Head::Record(name) => self.begin_sized(NamedHead::Record, name, size),
            Head::Tuple(name) => self.begin_sized(NamedHead::Tuple, name, size),
            Head::RecordTuple(name) => self.begin_sized(NamedHead::RecordTuple, name, size),
        }
    }

    /// Begins a sequence.
    fn begin_seq(&mut self, size: Option<usize>) -> Result<(), ErrorKind>
        ensures { let begin = calls.Begin calls.Seq size in
            CapturesBy (λ _. true) (λ f. Becomes (begun begin f)) self.old result self.new }
    {
        match size {
            Some(size) => self.begin(Begin::SizedSeq, size),
            None => self.begin(Begin::Seq, 0),
        }
    }

    /// Begins a map.
    fn begin_map(&mut self, size: Option<usize>) -> Result<(), ErrorKind>
        ensures { let begin = calls.Begin calls.Map size in
            CapturesBy (λ _. true) (λ f. Becomes (begun begin f)) self.old result self.new }
    {
        match size {
            Some(size) => self.begin(Begin::SizedMap, size),
            None => self.begin(Begin::Map, 0),
        }
    }

    /// Begins a container with a size that has a name, or may have one.
    fn begin_sized(
        &mut self,
        head: NamedHead,
        name: Name<'_>,
        size: Option<usize>,
    ) -> Result<(), ErrorKind>
        ensures { let begin = calls.Begin (named_head head (seen_name name.entry)) size in
            CapturesBy (λ _. true) (λ f. Becomes (begun begin f)) self.old result self.new }
    {
        self.begin_named(NamedKind::Sized(head, size), name)
    }

    /// Begins a part of a container.
    pub(crate) fn begin_slot(&mut self, slot: Slot<'_>) -> Result<(), ErrorKind>
        ensures { let begin = calls.PartBegin (seen_slot slot.entry) in
            CapturesBy (λ _. true) (λ f. Becomes (begun begin f)) self.old result self.new }
    {
        match slot {
            Slot::Item => self.begin_item(),
            Slot::Key => self.begin_key(),
            Slot::Value => self.begin_value(),
            Slot::Field(tag, label) => self.begin_at(NamedSlot::Field, tag, Some(label), None),
            Slot::Place(tag, index) => self.begin_at(NamedSlot::Place, tag, None, Some(index)),
            Slot::FieldPlace(tag, label, index) => {
                self.begin_at(NamedSlot::FieldPlace, tag, Some(label), Some(index))
            }
        }
    }

    /// Begins an item of a sequence.
    fn begin_item(&mut self) -> Result<(), ErrorKind>
        ensures { let begin = calls.PartBegin calls.Item in
            CapturesBy (λ _. true) (λ f. Becomes (begun begin f)) self.old result self.new }
    {
        self.begin(Begin::Item, 0)
    }

    /// Begins a key of a map.
    fn begin_key(&mut self) -> Result<(), ErrorKind>
        ensures { let begin = calls.PartBegin calls.Key in
            CapturesBy (λ _. true) (λ f. Becomes (begun begin f)) self.old result self.new }
    {
        self.begin(Begin::Key, 0)
    }

    /// Begins a value of a map.
    fn begin_value(&mut self) -> Result<(), ErrorKind>
        ensures { let begin = calls.PartBegin calls.Value in
            CapturesBy (λ _. true) (λ f. Becomes (begun begin f)) self.old result self.new }
    {
        self.begin(Begin::Value, 0)
    }

    /// Begins a part whose place has a name, by the three parts of the name, each where it is given.
    fn begin_at(
        &mut self,
        slot: NamedSlot,
        tag: Option<&Tag>,
        label: Option<&Label<'_>>,
        index: Option<&Index>,
    ) -> Result<(), ErrorKind>
        requires { HasParts slot (name_of tag label index) }
        ensures { let begin = calls.PartBegin (named_slot slot (name_of tag.entry label.entry index.entry)) in
            CapturesBy (λ _. true) (λ f. Becomes (begun begin f)) self.old result self.new }
    {
        self.begin_named(NamedKind::Part(slot), Name { tag, label, index })
    }
}
