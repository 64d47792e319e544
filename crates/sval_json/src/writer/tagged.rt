//! Tagged values.

ghost use Rattle.std.specs.Prelude.{option_map};
ghost use Rattle.sval_label.specs.Calls.{TaggedBegin, TaggedEnd};
ghost use Rattle.sval_label.specs.SeenName.{name_of};
ghost use Rattle.sval_json.specs.Marks.{seen_kind};
ghost use Rattle.sval_json.specs.Steps.{writer_step, refuses_key, begins_tagged, ends_tagged, number_is_over, number_ends};
ghost use Rattle.sval_json.specs.WriterLaw.{Does, IsOnlySet, writer_view};

use crate::error::Refusal;
use crate::marks::{TextKind, has_handle, text_kind};
use crate::number::NumberMachine;
use crate::writer::{Handler, JsonWriter};
use sval_core::{Index, Label, Result, Tag};
use sval_io::Sink;

impl<'k, K: Sink> JsonWriter<'k, K> {
    /// Refuses the JSON of a value in a key.
    fn refuse_value_in_key(&mut self, kind: TextKind) -> Result
        ensures { Does (refuses_key (seen_kind kind)) result
            (writer_view K.told self.old) (writer_view K.told self.new) }
    {
        match kind {
            TextKind::JsonValue => self.refuse_in_key(),
            _ => Ok(()),
        }
    }

    /// Takes the text that comes as one of this kind.
    fn begin_kind(&mut self, kind: TextKind)
        ensures { IsOnlySet (begins_tagged (seen_kind kind))
            (writer_view K.told self.old) (writer_view K.told self.new) }
    {
        match kind {
            TextKind::Ordinary => {}
            TextKind::JsonText => self.handler = Handler::Copies,
            TextKind::JsonValue | TextKind::JsonNumber => {
                self.quoted = false;
                self.handler = Handler::Copies;
            }
            TextKind::Number => {
                self.quoted = false;
                if let Handler::Escapes = self.handler {
                    self.handler = Handler::Reads(NumberMachine::new());
                }
            }
        }
    }

    /// Takes texts as they are again, after one of this kind.
    fn end_kind(&mut self, kind: TextKind) -> Result
        ensures { Does (ends_tagged (seen_kind kind)) result
            (writer_view K.told self.old) (writer_view K.told self.new) }
    {
        match kind {
            TextKind::Ordinary => Ok(()),
            TextKind::JsonText => {
                self.handler = Handler::Escapes;
                Ok(())
            }
            TextKind::JsonValue | TextKind::JsonNumber => {
                self.handler = Handler::Escapes;
                self.quoted = true;
                Ok(())
            }
            TextKind::Number => self.end_number(),
        }
    }

    /// Ends a number: writes its last bytes, or refuses it.
    fn end_number(&mut self) -> Result
        ensures { Does number_is_over result (writer_view K.told self.old) (writer_view K.told self.new) }
    {
        let handler = self.handler;
        self.handler = Handler::Escapes;
        self.quoted = true;
        match handler {
            Handler::Reads(machine) => self.write_last(machine.end()),
            _ => Ok(()),
        }
    }

    /// Writes the last bytes of a number, or refuses it.
    fn write_last(&mut self, last: Option<&[u8]>) -> Result
        ensures { Does (number_ends (option_map (λ bytes. bytes.now) last.entry)) result
            (writer_view K.told self.old) (writer_view K.told self.new) }
    {
        match last {
            Some(bytes) => self.write(bytes),
            None => self.refuse(Refusal::InvalidNumber),
        }
    }

    /// Begins a tagged value.
    #[inline(never)]
    pub(crate) fn begin_tagged(
        &mut self,
        tag: Option<&Tag>,
        label: Option<&Label>,
        index: Option<&Index>,
    ) -> Result
        ensures { Does (writer_step self.old.variants (TaggedBegin (name_of tag.entry label.entry index.entry))) result
            (writer_view K.told self.old) (writer_view K.told self.new) }
    {
        let kind = text_kind(tag);
        self.refuse_value_in_key(kind)?;
        self.begin_named(label, index)?;
        self.begin_kind(kind);
        self.empty = true;
        Ok(())
    }

    /// Ends a tagged value.
    #[inline(never)]
    pub(crate) fn end_tagged(
        &mut self,
        tag: Option<&Tag>,
        label: Option<&Label>,
        index: Option<&Index>,
    ) -> Result
        ensures { Does (writer_step self.old.variants (TaggedEnd (name_of tag.entry label.entry index.entry))) result
            (writer_view K.told self.old) (writer_view K.told self.new) }
    {
        self.end_kind(text_kind(tag))?;
        self.write_name_if_empty(tag, label, index)?;
        self.named = has_handle(label, index);
        Ok(())
    }
}
