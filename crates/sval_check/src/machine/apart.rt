//! The steps of calls that have functions of their own, so that [`Machine::step`] stays small.
//!
//! Calls with names, fragments of texts, and rarer calls are never compiled into the loop that makes the calls. Names
//! come here by their parts, since those are passed in registers. For the begins and ends of texts, the ends of
//! sequences and their items, the compiler decides.

ghost use Rattle.std.specs.Prelude.{true, false};
ghost use Rattle.sval_label.specs.Calls as call;
ghost use Rattle.sval_label.specs.SeenName.{name_of};
ghost use Rattle.sval_label.specs.Grouped.{seen_slot};
ghost use Rattle.sval_core.specs.Trees.{plain_name};
ghost use Rattle.sval_core.specs.CheckerSteps.{Variant, at_top, begin, end, part_begin, part_end, value};
ghost use Rattle.sval_check.specs.Kept.{value_frame};
ghost use Rattle.sval_check.specs.Frames.{begun_form, begun_frame};
ghost use Rattle.sval_check.specs.Tops.{content_end, content_fragment};
ghost use Rattle.sval_check.specs.Dues.{StepsTo, named_end};

use crate::frame::{Begin, Content, Form};
use crate::kept::NamedValue;
use crate::machine::{Machine, Refusal};
use sval_core::{Head, Index, Label, Name, Slot, Tag};

impl Machine {
    /// Takes the begin of a value that says this name.
    #[inline(never)]
    pub(super) fn open_named(
        &mut self,
        value: NamedValue,
        tag: Option<&Tag>,
        label: Option<&Label<'_>>,
        index: Option<&Index>,
        size: Option<usize>,
    ) -> Result<(), Refusal>
        ensures { let opened = value_frame value (plain_name (name_of tag.entry label.entry index.entry)) size in
            StepsTo true (begin Variant opened self.old) self.new result }
    {
        let due = self.begin_named(value, Name { tag, label, index }, size)?;
        self.finish(due);
        Ok(())
    }

    /// Takes the end of a value that says this name.
    #[inline(never)]
    pub(super) fn close_named(
        &mut self,
        value: NamedValue,
        tag: Option<&Tag>,
        label: Option<&Label<'_>>,
        index: Option<&Index>,
    ) -> Result<(), Refusal>
        ensures { StepsTo false (at_top (named_end value (name_of tag.entry label.entry index.entry)) self.old)
            self.new result }
    {
        let name = Name { tag, label, index };
        let due = match value {
            NamedValue::Tagged => self.tagged_end(name)?,
            NamedValue::Enum => self.enum_end(name)?,
            NamedValue::Record => self.end(Head::Record(name))?,
            NamedValue::Tuple => self.end(Head::Tuple(name))?,
            NamedValue::RecordTuple => self.end(Head::RecordTuple(name))?,
        };
        self.finish(due);
        Ok(())
    }

    /// Takes the begin of a field of a record.
    #[inline(never)]
    pub(super) fn open_field(&mut self, tag: Option<&Tag>, label: &Label<'_>) -> Result<(), Refusal>
        ensures { StepsTo true (at_top (part_begin (seen_slot (Slot.Field tag.entry label.entry))) self.old)
            self.new result }
    {
        self.open_part(Slot::Field(tag, label))
    }

    /// Takes the begin of a field of a tuple.
    #[inline(never)]
    pub(super) fn open_place(&mut self, tag: Option<&Tag>, index: &Index) -> Result<(), Refusal>
        ensures { StepsTo true (at_top (part_begin (seen_slot (Slot.Place tag.entry index.entry))) self.old)
            self.new result }
    {
        self.open_part(Slot::Place(tag, index))
    }

    /// Takes the begin of a field of a record that is a tuple too.
    #[inline(never)]
    pub(super) fn open_field_place(
        &mut self,
        tag: Option<&Tag>,
        label: &Label<'_>,
        index: &Index,
    ) -> Result<(), Refusal>
        ensures { StepsTo true
            (at_top (part_begin (seen_slot (Slot.FieldPlace tag.entry label.entry index.entry))) self.old)
            self.new result }
    {
        self.open_part(Slot::FieldPlace(tag, label, index))
    }

    /// Takes the end of a field of a record.
    #[inline(never)]
    pub(super) fn close_field(
        &mut self,
        tag: Option<&Tag>,
        label: &Label<'_>,
    ) -> Result<(), Refusal>
        ensures { StepsTo false (at_top (part_end (seen_slot (Slot.Field tag.entry label.entry))) self.old)
            self.new result }
    {
        self.close_part(Slot::Field(tag, label))
    }

    /// Takes the end of a field of a tuple.
    #[inline(never)]
    pub(super) fn close_place(&mut self, tag: Option<&Tag>, index: &Index) -> Result<(), Refusal>
        ensures { StepsTo false (at_top (part_end (seen_slot (Slot.Place tag.entry index.entry))) self.old)
            self.new result }
    {
        self.close_part(Slot::Place(tag, index))
    }

    /// Takes the end of a field of a record that is a tuple too.
    #[inline(never)]
    pub(super) fn close_field_place(
        &mut self,
        tag: Option<&Tag>,
        label: &Label<'_>,
        index: &Index,
    ) -> Result<(), Refusal>
        ensures { StepsTo false
            (at_top (part_end (seen_slot (Slot.FieldPlace tag.entry label.entry index.entry))) self.old)
            self.new result }
    {
        self.close_part(Slot::FieldPlace(tag, label, index))
    }

    /// Takes a tag by itself.
    #[inline(never)]
    pub(super) fn fill_variant(&mut self) -> Result<(), Refusal>
        ensures { StepsTo false (value Variant self.old) self.new result }
    {
        self.fill(Form::Variant)
    }

    /// Takes a text's begin.
    pub(super) fn open_text(&mut self, size: Option<usize>) -> Result<(), Refusal>
        ensures { let begun = Begin.Text size in
            StepsTo true (begin (begun_form begun) (begun_frame begun) self.old) self.new result }
    {
        self.open(Begin::Text(size))
    }

    /// Takes `size` bytes of a text.
    #[inline(never)]
    pub(super) fn add_text(&mut self, size: usize) -> Result<(), Refusal>
        ensures { StepsTo false (at_top (content_fragment Content.Text size) self.old) self.new result }
    {
        self.add(Content::Text, size)
    }

    /// Takes a text's end.
    pub(super) fn close_text(&mut self) -> Result<(), Refusal>
        ensures { StepsTo false (at_top (content_end Content.Text) self.old) self.new result }
    {
        self.close_content(Content::Text)
    }

    /// Takes a binary's begin.
    #[inline(never)]
    pub(super) fn open_binary(&mut self, size: Option<usize>) -> Result<(), Refusal>
        ensures { let begun = Begin.Binary size in
            StepsTo true (begin (begun_form begun) (begun_frame begun) self.old) self.new result }
    {
        self.open(Begin::Binary(size))
    }

    /// Takes `size` bytes of a binary.
    #[inline(never)]
    pub(super) fn add_binary(&mut self, size: usize) -> Result<(), Refusal>
        ensures { StepsTo false (at_top (content_fragment Content.Binary size) self.old) self.new result }
    {
        self.add(Content::Binary, size)
    }

    /// Takes a binary's end.
    #[inline(never)]
    pub(super) fn close_binary(&mut self) -> Result<(), Refusal>
        ensures { StepsTo false (at_top (content_end Content.Binary) self.old) self.new result }
    {
        self.close_content(Content::Binary)
    }

    /// Takes a sequence's end.
    pub(super) fn close_seq(&mut self) -> Result<(), Refusal>
        ensures { StepsTo false (at_top (end call.Seq) self.old) self.new result }
    {
        self.close_plain(Head::Seq)
    }

    /// Takes the begin of a sequence's item.
    pub(super) fn open_item(&mut self) -> Result<(), Refusal>
        ensures { StepsTo true (at_top (part_begin call.Item) self.old) self.new result }
    {
        self.open_part(Slot::Item)
    }

    /// Takes the end of a sequence's item.
    pub(super) fn close_item(&mut self) -> Result<(), Refusal>
        ensures { StepsTo false (at_top (part_end call.Item) self.old) self.new result }
    {
        self.close_part(Slot::Item)
    }

    /// Takes a map's begin.
    #[inline(never)]
    pub(super) fn open_map(&mut self, size: Option<usize>) -> Result<(), Refusal>
        ensures { let begun = Begin.Map size in
            StepsTo true (begin (begun_form begun) (begun_frame begun) self.old) self.new result }
    {
        self.open(Begin::Map(size))
    }

    /// Takes a map's end.
    #[inline(never)]
    pub(super) fn close_map(&mut self) -> Result<(), Refusal>
        ensures { StepsTo false (at_top (end call.Map) self.old) self.new result }
    {
        self.close_plain(Head::Map)
    }

    /// Takes the begin of a map's key.
    #[inline(never)]
    pub(super) fn open_key(&mut self) -> Result<(), Refusal>
        ensures { StepsTo true (at_top (part_begin call.Key) self.old) self.new result }
    {
        self.open_part(Slot::Key)
    }

    /// Takes the begin of a map's value.
    #[inline(never)]
    pub(super) fn open_value(&mut self) -> Result<(), Refusal>
        ensures { StepsTo true (at_top (part_begin call.Value) self.old) self.new result }
    {
        self.open_part(Slot::Value)
    }

    /// Takes the end of a map's key.
    #[inline(never)]
    pub(super) fn close_key(&mut self) -> Result<(), Refusal>
        ensures { StepsTo false (at_top (part_end call.Key) self.old) self.new result }
    {
        self.close_part(Slot::Key)
    }

    /// Takes the end of a map's value.
    #[inline(never)]
    pub(super) fn close_value(&mut self) -> Result<(), Refusal>
        ensures { StepsTo false (at_top (part_end call.Value) self.old) self.new result }
    {
        self.close_part(Slot::Value)
    }
}
