//! The machine's step as a whole, for streams where nothing else may refuse a call.
//!
//! It is compiled into the loop that makes the calls, so that each kind of call comes to what it needs alone. So it has
//! to stay small: calls with names, rarer calls, and some calls of texts and sequences have functions of their own
//! (`apart.rt`).

ghost use Rattle.std.specs.Prelude.{true, false};
ghost use Rattle.sval_label.specs.Made.{call_of};
ghost use Rattle.sval_label.specs.SeenName.{seen_name};
ghost use Rattle.sval_label.specs.Grouped.{seen_head, seen_slot};
ghost use Rattle.sval_core.specs.Trees.{first_kind, plain_head, plain_name};
ghost use Rattle.sval_core.specs.Checker.{InContainer};
ghost use Rattle.sval_core.specs.CheckerSteps.{Variant, at_top, begin, end, form_of_head, next};
ghost use Rattle.sval_core.specs.CheckerSteps.{part_begin, part_end, value};
ghost use Rattle.sval_check.specs.Checks.{has_own_end};
ghost use Rattle.sval_check.specs.Kept.{value_frame};
ghost use Rattle.sval_check.specs.Frames.{begun_form, begun_frame, seen_form};
ghost use Rattle.sval_check.specs.Tops.{content_end, content_fragment};
ghost use Rattle.sval_check.specs.Dues.{StepsTo, named_end};

use crate::frame::{Begin, Content, Form};
use crate::kept::NamedValue;
use crate::machine::{Machine, Refusal};
use sval_core::{AnyCall, Fragment, GroupedCall, Head, Lending, Name, Slot, Tag};

impl Machine {
    /// Goes on with a call, or says why it doesn't: [`Machine::ready`] and [`Machine::finish`] at once, for a stream
    /// that ends with the first refusal. A refused call may leave a part counted that didn't come.
    ///
    /// - [`Refusal::NotViable`] comes exactly where no value goes on with the call.
    /// - [`Refusal::NoMemory`] comes only where one does, and memory was wanting for what the call begins.
    #[inline(always)]
    pub fn step<L: Lending>(&mut self, call: AnyCall<'_, L::Text, L::Bytes>) -> Result<(), Refusal>
        ensures { let call = call_of L.text L.bytes call.entry in
            StepsTo (has_own_end call) (next self.old call) self.new result }
    {
        match call.grouped() {
            GroupedCall::Null | GroupedCall::Bool(_) | GroupedCall::Int(_) => {
                self.fill(Form::Other)
            }
            GroupedCall::Tag(_) => self.fill_variant(),
            GroupedCall::TagHint(_) => Ok(()),
            GroupedCall::TextBegin(size) => self.open_text(size),
            GroupedCall::TextFragment(Fragment::Borrowed(text)) => {
                self.add_text(L::text_len(text))
            }
            GroupedCall::TextFragment(Fragment::Computed(text)) => { self.add_text(text.len()) }
            GroupedCall::TextEnd => self.close_text(),
            GroupedCall::BinaryBegin(size) => self.open_binary(size),
            GroupedCall::BinaryFragment(Fragment::Borrowed(bytes)) => {
                self.add_binary(L::bytes_len(bytes))
            }
            GroupedCall::BinaryFragment(Fragment::Computed(bytes)) => {
                self.add_binary(bytes.len())
            }
            GroupedCall::BinaryEnd => self.close_binary(),
            GroupedCall::EnumBegin(name) => self.open_name(NamedValue::Enum, name, None),
            GroupedCall::EnumEnd(name) => self.close_name(NamedValue::Enum, name),
            GroupedCall::TaggedBegin(name) => self.open_name(NamedValue::Tagged, name, None),
            GroupedCall::TaggedEnd(name) => self.close_name(NamedValue::Tagged, name),
            GroupedCall::Begin(head, size) => self.open_container(head, size),
            GroupedCall::End(head) => self.close_container(head),
            GroupedCall::PartBegin(slot) => self.open_slot(slot),
            GroupedCall::PartEnd(slot) => self.close_slot(slot),
        }
    }

    /// Takes a value that is one call.
    #[inline(always)]
    pub(super) fn fill(&mut self, form: Form) -> Result<(), Refusal>
        ensures { StepsTo false (value (seen_form form) self.old) self.new result }
    {
        if !self.has_room(form) {
            return Err(Refusal::NotViable);
        }
        self.filled = true;
        Ok(())
    }

    /// Takes the begin of a value that says no name.
    #[inline(always)]
    pub(super) fn open(&mut self, call: Begin) -> Result<(), Refusal>
        ensures { StepsTo true (begin (begun_form call) (begun_frame call) self.old) self.new result }
    {
        if !self.has_room(call.form()) {
            return Err(Refusal::NotViable);
        }
        self.frames.push(call)?;
        Ok(())
    }

    /// Takes `size` bytes of a text or binary.
    #[inline(always)]
    pub(super) fn add(&mut self, content: Content, size: usize) -> Result<(), Refusal>
        ensures { StepsTo false (at_top (content_fragment content size) self.old) self.new result }
    {
        if self.filled {
            return Err(Refusal::NotViable);
        }
        let left = self
            .frames
            .content_rest(content, size)
            .ok_or(Refusal::NotViable)?;
        self.frames.set_left(content, left);
        Ok(())
    }

    /// Takes the end of a text or binary.
    #[inline(always)]
    pub(super) fn close_content(&mut self, content: Content) -> Result<(), Refusal>
        ensures { StepsTo false (at_top (content_end content) self.old) self.new result }
    {
        if self.filled || !self.frames.content_ends(content) {
            return Err(Refusal::NotViable);
        }
        self.close(true);
        Ok(())
    }

    /// Takes a container's begin.
    #[inline(always)]
    fn open_container(&mut self, head: Head<'_>, size: Option<usize>) -> Result<(), Refusal>
        ensures { let head = seen_head head.entry in
            let opened = InContainer (plain_head head) (first_kind head) size in
            StepsTo true (begin (form_of_head head) opened self.old) self.new result }
    {
        match head {
            Head::Seq => self.open(Begin::Seq(size)),
            Head::Map => self.open_map(size),
            Head::Record(name) => self.open_name(NamedValue::Record, name, size),
            Head::Tuple(name) => self.open_name(NamedValue::Tuple, name, size),
            Head::RecordTuple(name) => self.open_name(NamedValue::RecordTuple, name, size),
        }
    }

    /// Takes a container's end.
    #[inline(always)]
    fn close_container(&mut self, head: Head<'_>) -> Result<(), Refusal>
        ensures { StepsTo false (at_top (end (seen_head head.entry)) self.old) self.new result }
    {
        match head {
            Head::Seq => self.close_seq(),
            Head::Map => self.close_map(),
            Head::Record(name) => self.close_name(NamedValue::Record, name),
            Head::Tuple(name) => self.close_name(NamedValue::Tuple, name),
            Head::RecordTuple(name) => self.close_name(NamedValue::RecordTuple, name),
        }
    }

    /// Takes the end of a container that says no name.
    #[inline(always)]
    pub(super) fn close_plain(&mut self, head: Head<'_>) -> Result<(), Refusal>
        ensures { StepsTo false (at_top (end (seen_head head.entry)) self.old) self.new result }
    {
        if self.filled || !self.frames.ends(head) {
            return Err(Refusal::NotViable);
        }
        self.close(true);
        Ok(())
    }

    /// Takes the begin of a value that says a name, of a container with its size.
    #[inline(always)]
    fn open_name(
        &mut self,
        value: NamedValue,
        name: Name<'_>,
        size: Option<usize>,
    ) -> Result<(), Refusal>
        ensures { let opened = value_frame value (plain_name (seen_name name.entry)) size in
            StepsTo true (begin Variant opened self.old) self.new result }
    {
        self.open_named(value, name.tag, name.label, name.index, size)
    }

    /// Takes the end of a value that says a name.
    #[inline(always)]
    fn close_name(&mut self, value: NamedValue, name: Name<'_>) -> Result<(), Refusal>
        ensures { StepsTo false (at_top (named_end value (seen_name name.entry)) self.old) self.new result }
    {
        self.close_named(value, name.tag, name.label, name.index)
    }

    /// Takes the begin of a container's part.
    #[inline(always)]
    fn open_slot(&mut self, slot: Slot<'_>) -> Result<(), Refusal>
        ensures { StepsTo true (at_top (part_begin (seen_slot slot.entry)) self.old) self.new result }
    {
        match slot {
            Slot::Item => self.open_item(),
            Slot::Key => self.open_key(),
            Slot::Value => self.open_value(),
            Slot::Field(tag, label) => self.open_field(tag, label),
            Slot::Place(tag, index) => self.open_place(tag, index),
            Slot::FieldPlace(tag, label, index) => self.open_field_place(tag, label, index),
        }
    }

    /// Takes the begin of a part, and counts it in its container first, where that is known.
    #[inline(always)]
    pub(super) fn open_part(&mut self, slot: Slot<'_>) -> Result<(), Refusal>
        ensures { StepsTo true (at_top (part_begin (seen_slot slot.entry)) self.old) self.new result }
    {
        if self.filled {
            return Err(Refusal::NotViable);
        }
        let left = self.frames.part_rest(slot).ok_or(Refusal::NotViable)?;
        self.frames.advance(left);
        self.frames.push_part(slot)?;
        Ok(())
    }

    /// Takes the end of a container's part.
    #[inline(always)]
    fn close_slot(&mut self, slot: Slot<'_>) -> Result<(), Refusal>
        ensures { StepsTo false (at_top (part_end (seen_slot slot.entry)) self.old) self.new result }
    {
        match slot {
            Slot::Item => self.close_item(),
            Slot::Key => self.close_key(),
            Slot::Value => self.close_value(),
            Slot::Field(tag, label) => self.close_field(tag, label),
            Slot::Place(tag, index) => self.close_place(tag, index),
            Slot::FieldPlace(tag, label, index) => self.close_field_place(tag, label, index),
        }
    }

    /// Takes the end of a part.
    #[inline(always)]
    pub(super) fn close_part(&mut self, slot: Slot<'_>) -> Result<(), Refusal>
        ensures { StepsTo false (at_top (part_end (seen_slot slot.entry)) self.old) self.new result }
    {
        if !self.filled || !self.frames.is_slot(slot) {
            return Err(Refusal::NotViable);
        }
        self.close(false);
        Ok(())
    }
}
