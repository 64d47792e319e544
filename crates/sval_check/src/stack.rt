//! What has begun and has no end yet.

ghost use Rattle.std.specs.Prelude.{◌≡◌, ◌&&◌, [], ◌∷◌, ◌++◌, reverse, is_ok, is_none, if◌then◌else◌};
ghost use Rattle.sval_label.specs.SeenName.{seen_name, name_of};
ghost use Rattle.sval_label.specs.Grouped.{seen_head, seen_slot};
ghost use Rattle.sval_core.specs.Trees.{plain_name, plain_slot};
ghost use Rattle.sval_core.specs.Checker.{InPart};
ghost use Rattle.sval_core.specs.CheckerSteps.{admits, is_used_up};
ghost use Rattle.sval_core.specs.SameNames.{same_name};
ghost use Rattle.sval_core.specs.Stacks.{top_of, below};
ghost use Rattle.sval_check.specs.Kept.{value_frame, innermost_name, with_name};
ghost use Rattle.sval_check.specs.Frames.{begun_frame, innermost_left, seen_form};
ghost use Rattle.sval_check.specs.Tops.{is_tagged, is_enum, is_slot, may_end_with, content_ends, content_rest};
ghost use Rattle.sval_check.specs.Tops.{part_rest, with_left, after_part, under_top};

use crate::frame::{Begin, Content, Form, Frame};
use crate::kept::{NameParts, NamedValue, may_hold, same_tag};
use crate::left::{Left, is_used_up, take_off};
use crate::lefts::{advance, advance_around, innermost_left, put_left, take_left};
use crate::names::Names;
use std::alloc::Global;
use std::marker::Model;
use sval_core::{Head, Index, Label, Name, NoMemory, Slot, Tag};

/// All that is open, seen as the machine's frames, the innermost first.
#[derive(Drop)]
pub(crate) struct Stack {
    frames: Vec<Frame>,
    /// What is still to come of each text, binary and container among them, if its size was given.
    lefts: Vec<Left>,
    /// What those frames that are named began with.
    names: Names,
}

impl Model for Stack {
    ghost use Rattle.std.specs.Prelude.{◌≡◌, List, reverse, true};
    ghost use Rattle.sval_core.specs.Checker.{Frame};
    ghost use Rattle.sval_check.specs.Frames.{frames_of, are_counted};

    ghost Value = { List Frame };

    ghost view = { λ stack. frames_of (reverse stack.frames.items) (reverse stack.lefts.items) stack.names };

    ghost invariant = { λ stack. are_counted (reverse stack.frames.items) (reverse stack.lefts.items) ≡ true };
}

/// The innermost frame.
#[inline(always)]
fn innermost(frames: &[Frame]) -> Option<Frame>
    ensures { top_of (reverse frames.now) ≡ result }
{
    frames.last().copied()
}

/// The innermost frame is a container with a name, which has these parts, and may end with this name.
#[inline(always)]
fn named_ends(names: &Names, lefts: &[Left], parts: NameParts, name: Name<'_>) -> bool
    ensures { result ≡ (same_name (seen_name name.entry) (innermost_name parts names.now)
        && is_used_up (innermost_left (reverse lefts.now))) }
{
    names.is_name(parts, name) && is_used_up(innermost_left(lefts))
}

/// Puts a frame on the others, with its name, which has these parts.
#[inline(always)]
fn push_frame(
    frames: &mut Vec<Frame>,
    names: &mut Names,
    frame: Frame,
    tag: Option<&Tag>,
    label: Option<&Label<'_>>,
    index: Option<&Index>,
) -> Result<(), NoMemory>
    ensures frames { frames.new.items ≡ (if is_ok result then frames.old.items ++ (frame ∷ []) else frames.old.items) }
    ensures names { let name = plain_name (name_of tag.entry label.entry index.entry) in
        names.new ≡ (if is_ok result then with_name name names.old else names.old) }
{
    frames.reserve(1)?;
    names.keep(tag, label, index)?;
    frames.push_reserved(frame);
    Ok(())
}

impl Stack {
    /// A stack of no frame, which takes no memory yet.
    pub(crate) fn new(alloc: Global) -> Self
        ensures { result ≡ [] }
    {
        Stack {
            frames: Vec::new(alloc),
            lefts: Vec::new(alloc),
            names: Names::new(alloc),
        }
    }

    /// Nothing is open.
    pub(crate) fn is_empty(&self) -> bool
        ensures { result ≡ is_none (top_of self.now) }
    {
        innermost(&self.frames).is_none()
    }

    /// A value of this form may begin directly in the innermost frame, or outside all.
    #[inline(always)]
    pub(crate) fn admits(&self, form: Form) -> bool
        ensures { result ≡ admits (top_of self.now) (seen_form form) }
    {
        match innermost(&self.frames) {
            None
            | Some(
                Frame::Item
                | Frame::Key
                | Frame::Value
                | Frame::Field(_)
                | Frame::Place(_)
                | Frame::FieldPlace(_),
            ) => true,
            Some(Frame::Tagged(parts)) => { may_hold(self.names.tags.top(parts.tag), form) }
            Some(Frame::Enum(_)) => matches!(form, Form::Variant),
            _ => false,
        }
    }

    /// What is still to come of the text or binary of the innermost frame after `size` more bytes, if these can come.
    #[inline(always)]
    pub(crate) fn content_rest(&self, content: Content, size: usize) -> Option<Option<usize>>
        ensures { result ≡ content_rest content size (top_of self.now) }
    {
        match (innermost(&self.frames), content) {
            (Some(Frame::Text), Content::Text) | (Some(Frame::Binary), Content::Binary) => {
                take_off(innermost_left(&self.lefts), size)
            }
            _ => None,
        }
    }

    /// The innermost frame is in a text or binary that may end now.
    #[inline(always)]
    pub(crate) fn content_ends(&self, content: Content) -> bool
        ensures { result ≡ content_ends content (top_of self.now) }
    {
        match (innermost(&self.frames), content) {
            (Some(Frame::Text), Content::Text) | (Some(Frame::Binary), Content::Binary) => {
                is_used_up(innermost_left(&self.lefts))
            }
            _ => false,
        }
    }

    /// The innermost frame is in a value with a name of its own, which is this name.
    #[inline(always)]
    pub(crate) fn is_tagged(&self, name: Name<'_>) -> bool
        ensures { result ≡ is_tagged (top_of self.now) (seen_name name.entry) }
    {
        match innermost(&self.frames) {
            Some(Frame::Tagged(parts)) => self.names.is_name(parts, name),
            _ => false,
        }
    }

    /// The innermost frame is in an enum of this name.
    #[inline(always)]
    pub(crate) fn is_enum(&self, name: Name<'_>) -> bool
        ensures { result ≡ is_enum (top_of self.now) (seen_name name.entry) }
    {
        match innermost(&self.frames) {
            Some(Frame::Enum(parts)) => self.names.is_name(parts, name),
            _ => false,
        }
    }

    /// The innermost frame is in a container that may end with this head.
    #[inline(always)]
    pub(crate) fn ends(&self, head: Head<'_>) -> bool
        ensures { result ≡ may_end_with (top_of self.now) (seen_head head.entry) }
    {
        match (innermost(&self.frames), head) {
            (Some(Frame::Seq), Head::Seq) | (Some(Frame::Map), Head::Map) => {
                is_used_up(innermost_left(&self.lefts))
            }
            (Some(Frame::Record(parts)), Head::Record(name)) => {
                named_ends(&self.names, &self.lefts, parts, name)
            }
            (Some(Frame::Tuple(parts)), Head::Tuple(name)) => {
                named_ends(&self.names, &self.lefts, parts, name)
            }
            (Some(Frame::RecordTuple(parts)), Head::RecordTuple(name)) => {
                named_ends(&self.names, &self.lefts, parts, name)
            }
            _ => false,
        }
    }

    /// What is still to come of a container in which the innermost frame is, after a part at this place.
    #[inline(always)]
    pub(crate) fn part_rest(&self, slot: Slot<'_>) -> Option<Option<usize>>
        ensures { result ≡ part_rest (seen_slot slot.entry) (top_of self.now) }
    {
        match (innermost(&self.frames), slot) {
            (Some(Frame::Seq), Slot::Item) | (Some(Frame::Map), Slot::Key) => {
                take_off(innermost_left(&self.lefts), 1)
            }
            (Some(Frame::Record(_)), Slot::Field(_, _))
            | (Some(Frame::Tuple(_)), Slot::Place(_, _))
            | (Some(Frame::RecordTuple(_)), Slot::FieldPlace(_, _, _)) => {
                take_off(innermost_left(&self.lefts), 1)
            }
            (Some(Frame::Entry), Slot::Value) => Some(innermost_left(&self.lefts)),
            _ => None,
        }
    }

    /// The innermost frame is in a part at this place.
    #[inline(always)]
    pub(crate) fn is_slot(&self, slot: Slot<'_>) -> bool
        ensures { result ≡ is_slot (top_of self.now) (seen_slot slot.entry) }
    {
        let names = &self.names;
        match (innermost(&self.frames), slot) {
            (Some(Frame::Item), Slot::Item)
            | (Some(Frame::Key), Slot::Key)
            | (Some(Frame::Value), Slot::Value) => true,
            (Some(Frame::Field(has_tag)), Slot::Field(tag, label)) => {
                same_tag(tag, names.tags.top(has_tag)) && names.labels.is(label)
            }
            (Some(Frame::Place(has_tag)), Slot::Place(tag, index)) => {
                same_tag(tag, names.tags.top(has_tag)) && names.indexes.is(index)
            }
            (Some(Frame::FieldPlace(has_tag)), Slot::FieldPlace(tag, label, index)) => {
                same_tag(tag, names.tags.top(has_tag))
                    && names.labels.is(label)
                    && names.indexes.is(index)
            }
            _ => false,
        }
    }

    /// Opens the frame of a value that says no name in the innermost one.
    #[inline(always)]
    pub(crate) fn push(&mut self, begin: Begin) -> Result<(), NoMemory>
        ensures { self.new ≡ (if is_ok result then begun_frame begin ∷ self.old else self.old) }
    {
        self.frames.reserve(1)?;
        self.lefts.push(Left::new(begin.size()))?;
        self.frames.push_reserved(begin.frame());
        Ok(())
    }

    /// Opens the frame of a value that says a name in the innermost one; of a container so much is still to come.
    #[inline(always)]
    pub(crate) fn push_named(
        &mut self,
        value: NamedValue,
        name: Name<'_>,
        left: Option<usize>,
    ) -> Result<(), NoMemory>
        ensures { let opened = value_frame value (plain_name (seen_name name.entry)) left in
            self.new ≡ (if is_ok result then opened ∷ self.old else self.old) }
    {
        let frame = Frame::named(value, NameParts::of(name));
        let (tag, label, index) = (name.tag, name.label, name.index);
        if !value.is_container() {
            push_frame(&mut self.frames, &mut self.names, frame, tag, label, index)?;
            return Ok(());
        }
        self.lefts.reserve(1)?;
        push_frame(&mut self.frames, &mut self.names, frame, tag, label, index)?;
        self.lefts.push_reserved(Left::new(left));
        Ok(())
    }

    /// Opens a part in the innermost frame.
    #[inline(always)]
    pub(crate) fn push_part(&mut self, slot: Slot<'_>) -> Result<(), NoMemory>
        ensures { let part = InPart (plain_slot (seen_slot slot.entry)) in
            self.new ≡ (if is_ok result then part ∷ self.old else self.old) }
    {
        let (frames, names) = (&mut self.frames, &mut self.names);
        match slot {
            Slot::Item => push_frame(frames, names, Frame::Item, None, None, None),
            Slot::Key => push_frame(frames, names, Frame::Key, None, None, None),
            Slot::Value => push_frame(frames, names, Frame::Value, None, None, None),
            Slot::Field(tag, label) => {
                let frame = Frame::Field(tag.is_some());
                push_frame(frames, names, frame, tag, Some(label), None)
            }
            Slot::Place(tag, index) => {
                let frame = Frame::Place(tag.is_some());
                push_frame(frames, names, frame, tag, None, Some(index))
            }
            Slot::FieldPlace(tag, label, index) => {
                let frame = Frame::FieldPlace(tag.is_some());
                push_frame(frames, names, frame, tag, Some(label), Some(index))
            }
        }
    }

    /// Counts a part in the innermost frame, a container. `left` is the number of its entries that are still to come
    /// after the part.
    #[inline(always)]
    pub(crate) fn advance(&mut self, left: Option<usize>)
        ensures { self.new ≡ after_part left self.old }
    {
        advance(&mut self.frames, &mut self.lefts, left);
    }

    /// Counts the innermost frame, a part, in the container around it. `left` is the number of entries that are still
    /// to come of that container.
    pub(crate) fn advance_around(&mut self, left: Option<usize>)
        ensures { self.new ≡ under_top (after_part left) self.old }
    {
        advance_around(&mut self.frames, &mut self.lefts, left);
    }

    /// Closes the innermost frame, if there is one.
    #[inline(always)]
    pub(crate) fn pop(&mut self)
        ensures { self.new ≡ below self.old }
    {
        if let Some(frame) = self.frames.pop() {
            take_left(&mut self.lefts, frame.has_left());
            self.names.let_go(frame);
        }
    }

    /// Puts what is still to come of a text or binary into the innermost frame, if it is in one.
    #[inline(always)]
    pub(crate) fn set_left(&mut self, content: Content, left: Option<usize>)
        ensures { self.new ≡ with_left content left self.old }
    {
        match (innermost(&self.frames), content) {
            (Some(Frame::Text), Content::Text) | (Some(Frame::Binary), Content::Binary) => {
                put_left(&mut self.lefts, left)
            }
            _ => {}
        }
    }
}
