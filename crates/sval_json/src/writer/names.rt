//! Names, before a variant's value and by themselves.

ghost use Rattle.std.specs.Prelude.{◌≡◌, ◌++◌, true, None, Some, codes};
ghost use Rattle.sval_label.specs.Calls.{EnumEnd};
ghost use Rattle.sval_label.specs.SeenName.{name_of};
ghost use Rattle.sval_json.specs.Actions.{write, when, ◌then◌, ◌sets◌, set_named, set_empty};
ghost use Rattle.sval_json.specs.Escape.{escaped};
ghost use Rattle.sval_json.specs.Shape.{handle_of, is_none_tag};
ghost use Rattle.sval_json.specs.Steps.{refuse_in_key, opens_handle, name_step, closes};
ghost use Rattle.sval_json.specs.Steps.{label_step, own_step, standalone_step, writer_step};
ghost use Rattle.sval_json.specs.Marks.{seen_option_index, seen_handle};
ghost use Rattle.sval_json.specs.WriterLaw.{Does, writer_view};

use crate::marks::{has_handle, is_none, number_of};
use crate::style::Variants;
use crate::writer::JsonWriter;
use crate::writer::short::Quoted;
use itoa::Buffer;
use sval_core::{Index, Label, Result, Tag};
use sval_io::Sink;

impl<'k, K: Sink> JsonWriter<'k, K> {
    /// Opens an object with an escaped text between others, or refuses where a key is due.
    #[inline(always)]
    fn open_between(&mut self, before: &str, text: &str, after: &str) -> Result
        ensures { Does (refuse_in_key then write (before.now ++ escaped text.now ++ after.now)) result
            (writer_view K.told self.old) (writer_view K.told self.new) }
    {
        self.refuse_in_key()?;
        self.write_between(before, Quoted::escaped(text), after)
    }

    /// Opens the object around a variant, up to the variant's value.
    fn open_variant(&mut self, handle: &str) -> Result
        ensures { Does (opens_handle self.old.variants (Some handle.now)) result
            (writer_view K.told self.old) (writer_view K.told self.new) }
    {
        match self.variants {
            Variants::Inside => self.open_between("{\"", handle, "\":"),
            Variants::Beside => self.open_between("{\"variant\":\"", handle, "\",\"value\":"),
        }
    }

    /// Opens the object around a variant of this name, if the name has a handle.
    fn open_handle(&mut self, label: Option<&Label>, index: Option<&Index>) -> Result
        ensures { Does (opens_handle self.old.variants (seen_handle label.entry index.entry)) result
            (writer_view K.told self.old) (writer_view K.told self.new) }
    {
        if let Some(label) = label {
            return self.open_variant(label.as_str());
        }
        match number_of(index) {
            Some(number) => self.open_variant(Buffer::new().format(number)),
            None => Ok(()),
        }
    }

    /// Gives a name to what begins, where one is due.
    pub(crate) fn begin_named(&mut self, label: Option<&Label>, index: Option<&Index>) -> Result
        ensures { Does (name_step self.old.variants (seen_handle label.entry index.entry)) result
            (writer_view K.told self.old) (writer_view K.told self.new) }
    {
        if self.named {
            self.open_handle(label, index)?;
            self.named = false;
        }
        Ok(())
    }

    /// Writes the number of an index, or `null`.
    fn write_index(&mut self, index: Option<&Index>) -> Result
        ensures { Does (label_step None (handle_of None (seen_option_index index.entry))) result
            (writer_view K.told self.old) (writer_view K.told self.new) }
    {
        match number_of(index) {
            Some(number) => self.write_value(Buffer::new().format(number).as_bytes()),
            None => self.write_value(b"null"),
        }
    }

    /// Writes what stands for a name by itself.
    fn write_own(
        &mut self,
        tag: Option<&Tag>,
        label: Option<&Label>,
        index: Option<&Index>,
    ) -> Result
        ensures { let n = name_of tag.entry label.entry index.entry in
            Does (own_step (is_none_tag n.tag) n.label (handle_of None n.index)) result
            (writer_view K.told self.old) (writer_view K.told self.new) }
    {
        if is_none(tag) {
            return self.write_value(b"null");
        }
        match label {
            Some(label) => self.write_text(label.as_str()),
            None => self.write_index(index),
        }
    }

    /// Writes a name by itself.
    #[inline(never)]
    pub(crate) fn write_name(
        &mut self,
        tag: Option<&Tag>,
        label: Option<&Label>,
        index: Option<&Index>,
    ) -> Result
        ensures { Does (standalone_step (name_of tag.entry label.entry index.entry)) result
            (writer_view K.told self.old) (writer_view K.told self.new) }
    {
        self.named = false;
        self.empty = false;
        self.write_own(tag, label, index)
    }

    /// Writes the name of what ends, if nothing was written in that.
    pub(crate) fn write_name_if_empty(
        &mut self,
        tag: Option<&Tag>,
        label: Option<&Label>,
        index: Option<&Index>,
    ) -> Result
        ensures { let n = name_of tag.entry label.entry index.entry in
            Does (when (λ state. state.empty) (standalone_step n)) result
            (writer_view K.told self.old) (writer_view K.told self.new) }
    {
        if self.empty {
            return self.write_name(tag, label, index);
        }
        Ok(())
    }

    /// Closes the object around a variant, if there is one.
    fn close_variant(&mut self) -> Result
        ensures { Does (when (λ state. state.named) (closes (codes "}"))) result
            (writer_view K.told self.old) (writer_view K.told self.new) }
    {
        if self.named {
            return self.close(b"}");
        }
        Ok(())
    }

    /// Begins an enum.
    #[inline(never)]
    pub(crate) fn begin_enum(&mut self, label: Option<&Label>, index: Option<&Index>) -> Result
        ensures { Does (name_step self.old.variants (seen_handle label.entry index.entry)
            sets set_named true sets set_empty true) result
            (writer_view K.told self.old) (writer_view K.told self.new) }
    {
        self.begin_named(label, index)?;
        self.named = true;
        self.empty = true;
        Ok(())
    }

    /// Ends an enum.
    #[inline(never)]
    pub(crate) fn end_enum(
        &mut self,
        tag: Option<&Tag>,
        label: Option<&Label>,
        index: Option<&Index>,
    ) -> Result
        ensures { Does (writer_step self.old.variants (EnumEnd (name_of tag.entry label.entry index.entry))) result
            (writer_view K.told self.old) (writer_view K.told self.new) }
    {
        self.write_name_if_empty(tag, label, index)?;
        self.close_variant()?;
        self.named = has_handle(label, index);
        Ok(())
    }
}
