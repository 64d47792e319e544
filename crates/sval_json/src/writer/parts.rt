//! Containers and their parts.

ghost use Rattle.std.specs.Prelude.{codes, is_some};
ghost use Rattle.sval_label.specs.Calls as call;
ghost use Rattle.sval_label.specs.Grouped.{seen_head, seen_slot};
ghost use Rattle.sval_json.specs.Actions.{write, ◌then◌, ◌sets◌, set_named};
ghost use Rattle.sval_json.specs.Steps.{container_begins, container_ends, part_begins, part_ends};
ghost use Rattle.sval_json.specs.Steps.{opens, closes, name_step, item_begins, field_begins};
ghost use Rattle.sval_json.specs.Marks.{seen_handle};
ghost use Rattle.sval_json.specs.WriterLaw.{Does, writer_view};

use crate::marks::has_handle;
use crate::writer::JsonWriter;
use crate::writer::short::Quoted;
use sval_core::{Head, Index, Label, Result, Slot};
use sval_io::Sink;

impl<'k, K: Sink> JsonWriter<'k, K> {
    /// Opens a container under its name, where that is due.
    #[inline(never)]
    fn open_named(&mut self, label: Option<&Label>, index: Option<&Index>, bracket: &[u8]) -> Result
        ensures { Does (name_step self.old.variants (seen_handle label.entry index.entry) then opens bracket.now) result
            (writer_view K.told self.old) (writer_view K.told self.new) }
    {
        self.begin_named(label, index)?;
        self.open(bracket)
    }

    /// Closes a container that has a name.
    #[inline(never)]
    fn close_named(
        &mut self,
        label: Option<&Label>,
        index: Option<&Index>,
        bracket: &[u8],
    ) -> Result
        ensures { Does (closes bracket.now sets set_named (is_some (seen_handle label.entry index.entry))) result
            (writer_view K.told self.old) (writer_view K.told self.new) }
    {
        self.close(bracket)?;
        self.named = has_handle(label, index);
        Ok(())
    }

    /// Begins a container.
    #[inline(always)]
    pub(crate) fn begin_container(&mut self, head: Head) -> Result
        ensures { Does (container_begins self.old.variants (seen_head head.entry)) result
            (writer_view K.told self.old) (writer_view K.told self.new) }
    {
        match head {
            Head::Seq => self.open(b"["),
            Head::Map => self.open(b"{"),
            Head::Record(name) => self.open_named(name.label, name.index, b"{"),
            Head::Tuple(name) => self.open_named(name.label, name.index, b"["),
            Head::RecordTuple(name) => self.open_named(name.label, name.index, b"{"),
        }
    }

    /// Ends a container.
    #[inline(always)]
    pub(crate) fn end_container(&mut self, head: Head) -> Result
        ensures { Does (container_ends (seen_head head.entry)) result
            (writer_view K.told self.old) (writer_view K.told self.new) }
    {
        match head {
            Head::Seq => self.close(b"]"),
            Head::Map => self.close(b"}"),
            Head::Record(name) => self.close_named(name.label, name.index, b"}"),
            Head::Tuple(name) => self.close_named(name.label, name.index, b"]"),
            Head::RecordTuple(name) => self.close_named(name.label, name.index, b"}"),
        }
    }

    /// Begins an item: with a comma, unless it is the first.
    #[inline(never)]
    pub(crate) fn begin_item(&mut self) -> Result
        ensures { Does item_begins result (writer_view K.told self.old) (writer_view K.told self.new) }
    {
        self.named = false;
        if self.empty {
            return Ok(());
        }
        self.write_few(b",")
    }

    /// Begins a pair of a map, up to the key's text.
    fn open_key(&mut self) -> Result
        ensures { Does (item_begins then write (codes "\"")) result
            (writer_view K.told self.old) (writer_view K.told self.new) }
    {
        self.named = false;
        if self.empty {
            return self.write_few(b"\"");
        }
        self.write_few(b",\"")
    }

    /// Begins a key of a map.
    #[inline(never)]
    fn begin_key(&mut self) -> Result
        ensures { Does (part_begins call.Key) result (writer_view K.told self.old) (writer_view K.told self.new) }
    {
        self.open_key()?;
        self.quoted = false;
        Ok(())
    }

    /// Ends a key of a map.
    #[inline(never)]
    fn end_key(&mut self) -> Result
        ensures { Does (part_ends call.Key) result (writer_view K.told self.old) (writer_view K.told self.new) }
    {
        self.write_few(b"\":")?;
        self.quoted = true;
        self.named = false;
        Ok(())
    }

    /// Begins a field, up to its value: as one piece, if its key is short and nothing in it is escaped.
    #[inline(never)]
    fn begin_field(&mut self, label: &Label) -> Result
        ensures { Does (field_begins label.now) result (writer_view K.told self.old) (writer_view K.told self.new) }
    {
        self.named = false;
        let key = Quoted::label(label);
        if self.empty {
            return self.write_between("\"", key, "\":");
        }
        self.write_between(",\"", key, "\":")
    }

    /// Begins a part of a container.
    #[inline(always)]
    pub(crate) fn begin_part(&mut self, slot: Slot) -> Result
        ensures { Does (part_begins (seen_slot slot.entry)) result
            (writer_view K.told self.old) (writer_view K.told self.new) }
    {
        match slot {
            Slot::Item | Slot::Place(_, _) => self.begin_item(),
            Slot::Key => self.begin_key(),
            Slot::Value => Ok(()),
            Slot::Field(_, label) => self.begin_field(label),
            Slot::FieldPlace(_, label, _) => self.begin_field(label),
        }
    }

    /// Ends a part of a container.
    #[inline(always)]
    pub(crate) fn end_part(&mut self, slot: Slot) -> Result
        ensures { Does (part_ends (seen_slot slot.entry)) result
            (writer_view K.told self.old) (writer_view K.told self.new) }
    {
        match slot {
            Slot::Key => self.end_key(),
            _ => Ok(()),
        }
    }
}
