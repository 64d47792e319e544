//! Texts, numbers in texts, and binaries.

ghost use Rattle.std.specs.Prelude.{◌++◌, codes};
ghost use Rattle.std.specs.Fmt.{decimal};
ghost use Rattle.sval_json.specs.Actions.{◌then◌};
ghost use Rattle.sval_json.specs.Escape.{escaped};
ghost use Rattle.sval_json.specs.Steps.{value_written, text_begins, fragment, quote_if_quoted, item_begins, bytes_step};
ghost use Rattle.sval_json.specs.Steps.{number_read};
ghost use Rattle.sval_json.specs.Number.{take_bytes};
ghost use Rattle.sval_json.specs.SeenNumber.{seen_machine};
ghost use Rattle.sval_json.specs.WriterLaw.{Does, writer_view};

use crate::error::{Refusal, Stop};
use crate::number::NumberMachine;
use crate::writer::short::Quoted;
use crate::writer::{Handler, JsonWriter};
use itoa::Buffer;
use sval_core::{Error, Result};
use sval_io::Sink;

impl<'k, K: Sink> JsonWriter<'k, K> {
    /// Writes the quote of a text, where texts bring theirs.
    pub(crate) fn quote(&mut self) -> Result
        ensures { Does quote_if_quoted result (writer_view K.told self.old) (writer_view K.told self.new) }
    {
        if self.quoted {
            return self.write_few(b"\"");
        }
        Ok(())
    }

    /// Begins a text.
    pub(crate) fn begin_text(&mut self) -> Result
        ensures { Does text_begins result (writer_view K.told self.old) (writer_view K.told self.new) }
    {
        self.empty = false;
        self.quote()
    }

    /// Writes a part of a text.
    #[inline(never)]
    pub(crate) fn write_fragment(&mut self, text: &str) -> Result
        ensures { Does (fragment text.now) result (writer_view K.told self.old) (writer_view K.told self.new) }
    {
        match self.handler {
            Handler::Escapes => self.write_escaped(text.as_bytes()),
            Handler::Copies => self.write(text.as_bytes()),
            Handler::Reads(machine) => self.read_number(machine, text.as_bytes()),
        }
    }

    /// Writes a text of one part.
    pub(crate) fn write_text(&mut self, text: &str) -> Result
        ensures { Does (text_begins then fragment text.now then quote_if_quoted) result
            (writer_view K.told self.old) (writer_view K.told self.new) }
    {
        match self.handler {
            Handler::Escapes if self.quoted => self.write_with_quotes(text),
            _ => self.write_whole(text),
        }
    }

    /// Writes an escaped text with its quotes.
    fn write_with_quotes(&mut self, text: &str) -> Result
        ensures { Does (value_written (codes "\"" ++ escaped text.now ++ codes "\"")) result
            (writer_view K.told self.old) (writer_view K.told self.new) }
    {
        self.empty = false;
        self.write_between("\"", Quoted::escaped(text), "\"")
    }

    /// Writes a text of one part as its three calls would.
    fn write_whole(&mut self, text: &str) -> Result
        ensures { Does (text_begins then fragment text.now then quote_if_quoted) result
            (writer_view K.told self.old) (writer_view K.told self.new) }
    {
        self.begin_text()?;
        self.write_fragment(text)?;
        self.quote()
    }

    /// Goes on with a number.
    #[inline(never)]
    fn read_number(&mut self, machine: NumberMachine, bytes: &[u8]) -> Result
        ensures { Does (number_read (take_bytes (seen_machine machine) bytes.now)) result
            (writer_view K.told self.old) (writer_view K.told self.new) }
    {
        let mut machine = machine;
        let read = machine.read(self.sink, bytes);
        self.handler = Handler::Reads(machine);
        match read {
            Ok(true) => Ok(()),
            Ok(false) => {
                self.why = Some(Stop::Step(Refusal::InvalidNumber));
                Err(Error::new())
            }
            Err(why) => {
                self.why = Some(Stop::Sink(why));
                Err(Error::new())
            }
        }
    }

    /// Writes bytes as items of an array.
    #[inline(never)]
    pub(crate) fn write_bytes(&mut self, bytes: &[u8]) -> Result
        ensures { Does (bytes_step bytes.now) result (writer_view K.told self.old) (writer_view K.told self.new) }
    {
        let mut rest = bytes;
        while let Some((byte, after)) = rest.split_first() {
            self.write_byte(*byte)?;
            rest = after;
        }
        Ok(())
    }

    /// Writes a byte as an item of an array.
    fn write_byte(&mut self, byte: u8) -> Result
        ensures { Does (item_begins then value_written (decimal byte)) result
            (writer_view K.told self.old) (writer_view K.told self.new) }
    {
        self.begin_item()?;
        self.write_value(Buffer::new().format(byte).as_bytes())
    }
}
