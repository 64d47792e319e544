//! The writer: a stream that writes CBOR to a sink.

mod names;
mod parts;
mod texts;

ghost use Rattle.std.specs.Prelude.{◌<◌, ◌++◌, Err};
ghost use Rattle.std.specs.Fmt.{signed_decimal};
ghost use Rattle.sval_label.specs.Grouped.{int_number};
ghost use Rattle.sval_label.specs.Made.{lent_call};
ghost use Rattle.sval_core.specs.Law.{Answers};
ghost use Rattle.sval_json.specs.Json.{number};
ghost use Rattle.sval_cbor.specs.Cbor.{string, integer, row_head, row_end};
ghost use Rattle.sval_cbor.specs.SeenWriter.{seen_pack_refusal, seen_integer};
ghost use Rattle.sval_cbor.specs.Writing.{writes, simple, simple_step, json_step};
ghost use Rattle.sval_cbor.specs.WriterLaw.{CborWriterView, CborDoes, json_bytes, cbor_writer_law, cbor_writer_state, writer_target, cbor_writer_view, cbor_writer_standing};

use crate::error::{Refusal, Stop};
use crate::head::{write_integer, write_row_head, write_text};
use crate::integer::Integer;
use crate::style::{Lengths, Style};
use itoa::Buffer;
use sval_core::{Call, Error, Fragment, GroupedCall, Int, Lent, Result, Stream};
use sval_io::{Sink, write_all};

/// What ends an array or a map of indefinite length (RFC 8949, section 3.2.1).
const BREAK: &[u8] = b"\xff";

/// The major type of arrays.
const ARRAY: u8 = 4;

/// The major type of maps.
const MAP: u8 = 5;

/// Where the writer is with respect to enums.
#[derive(Clone, Copy)]
pub(crate) enum Place {
    /// In none that matters.
    Elsewhere,
    /// In one that has begun and holds nothing yet.
    Begun,
    /// After a value that has a handle.
    Ended,
}

/// Writes CBOR to a sink. Each text and each binary has to come in one fragment.
///
/// Each method does what its clause names of a step, or is stopped in it.
#[derive(Drop)]
pub(crate) struct Writer<'k, K: Sink> {
    pub(crate) sink: &'k mut K,
    /// The style that it writes in.
    pub(crate) style: Style,
    /// Where the writer is with respect to enums.
    pub(crate) place: Place,
    /// It is in a map's key.
    pub(crate) in_key: bool,
    /// Text stands for a number.
    pub(crate) in_number: bool,
    /// What stopped it, if something did.
    pub(crate) why: Option<Stop>,
    /// Where lengths are definite, how many items or pairs each container has that is still to begin.
    pub(crate) counts: &'k [u64],
}

impl<'k, K: Sink> Writer<'k, K> {
    /// Writes these bytes as they are.
    fn write(&mut self, bytes: &[u8]) -> Result
        ensures { CborDoes (writes bytes.now (cbor_writer_state self.old)) result
            (writer_target K.told self.old) (cbor_writer_view K.told self.new) }
    {
        match write_all(self.sink, bytes) {
            Ok(()) => Ok(()),
            Err(why) => {
                self.why = Some(Stop::Sink(why));
                Err(Error::new())
            }
        }
    }

    /// Writes what begins an array or a map of this many items or pairs, by its major type.
    fn write_row_head(&mut self, major: u8, number: u64) -> Result
        requires { major < 8 }
        ensures { CborDoes (writes (row_head self.old.style.lengths major number) (cbor_writer_state self.old)) result
            (writer_target K.told self.old) (cbor_writer_view K.told self.new) }
    {
        match write_row_head(self.sink, self.style.lengths, major, number) {
            Ok(()) => Ok(()),
            Err(why) => {
                self.why = Some(Stop::Sink(why));
                Err(Error::new())
            }
        }
    }

    /// Writes what ends an array or a map.
    fn write_row_end(&mut self) -> Result
        ensures { CborDoes (writes (row_end self.old.style.lengths) (cbor_writer_state self.old)) result
            (writer_target K.told self.old) (cbor_writer_view K.told self.new) }
    {
        match self.style.lengths {
            Lengths::Indefinite => self.write(BREAK),
            Lengths::Definite => self.write(b""),
        }
    }

    /// Writes a text.
    fn write_text(&mut self, text: &[u8]) -> Result
        ensures { CborDoes (writes (string 3 text.now) (cbor_writer_state self.old)) result
            (writer_target K.told self.old) (cbor_writer_view K.told self.new) }
    {
        match write_text(self.sink, text) {
            Ok(()) => Ok(()),
            Err(why) => {
                self.why = Some(Stop::Sink(why));
                Err(Error::new())
            }
        }
    }

    /// Writes a whole number.
    fn write_integer(&mut self, number: Integer) -> Result
        ensures { CborDoes (writes (integer (seen_integer number)) (cbor_writer_state self.old)) result
            (writer_target K.told self.old) (cbor_writer_view K.told self.new) }
    {
        match write_integer(self.sink, number) {
            Ok(()) => Ok(()),
            Err(why) => {
                self.why = Some(Stop::Sink(why));
                Err(Error::new())
            }
        }
    }

    /// Refuses a call.
    fn refuse(&mut self, why: Refusal) -> Result
        ensures { CborDoes (Err (seen_pack_refusal why)) result
            (writer_target K.told self.old) (cbor_writer_view K.told self.new) }
    {
        self.why = Some(Stop::Step(why));
        Err(Error::new())
    }

    /// Writes a simple value, by its text in a key.
    fn write_simple(&mut self, text: &[u8], bytes: &[u8]) -> Result
        ensures { CborDoes (writes (simple self.old.in_key text.now bytes.now) (cbor_writer_state self.old)) result
            (writer_target K.told self.old) (cbor_writer_view K.told self.new) }
    {
        if self.in_key {
            return self.write_text(text);
        }
        self.write(bytes)
    }

    /// Writes a whole number of any type, by its digits in a key.
    fn write_int(&mut self, int: Int) -> Result
        ensures { CborDoes
            (writes (json_bytes self.old.in_key (number (signed_decimal (int_number int))))
            (cbor_writer_state self.old))
            result (writer_target K.told self.old) (cbor_writer_view K.told self.new) }
    {
        if self.in_key {
            let mut buffer = Buffer::new();
            return self.write_text(int.format(&mut buffer).as_bytes());
        }
        self.write_integer(Integer::of(int))
    }

    /// Takes a simple value.
    fn take_simple(&mut self, text: &[u8], bytes: &[u8]) -> Result
        ensures { CborDoes (simple_step text.now bytes.now (cbor_writer_state self.old)) result
            (writer_target K.told self.old) (cbor_writer_view K.told self.new) }
    {
        self.place = Place::Elsewhere;
        self.write_simple(text, bytes)
    }

    /// Takes a whole number.
    #[inline(never)]
    fn take_int(&mut self, int: Int) -> Result
        ensures { CborDoes (json_step (number (signed_decimal (int_number int))) (cbor_writer_state self.old)) result
            (writer_target K.told self.old) (cbor_writer_view K.told self.new) }
    {
        self.place = Place::Elsewhere;
        self.write_int(int)
    }
}

impl<'k, 'sval, K: Sink> Stream<Lent<'sval>> for Writer<'k, K> {
    ghost View = { CborWriterView };

    ghost law = { cbor_writer_law };

    ghost standing = { cbor_writer_standing K.told };

    #[inline(always)]
    fn take(&mut self, call: Call<'sval, '_>) -> Result
        ensures { Answers cbor_writer_law result
            (cbor_writer_standing K.told self.old) (lent_call call.entry) (cbor_writer_standing K.told self.new) }
    {
        match call.grouped() {
            GroupedCall::Null => self.take_simple(b"null", b"\xf6"),
            GroupedCall::Bool(false) => self.take_simple(b"false", b"\xf4"),
            GroupedCall::Bool(true) => self.take_simple(b"true", b"\xf5"),
            GroupedCall::Int(number) => self.take_int(number),
            GroupedCall::TextBegin(_) | GroupedCall::TextEnd | GroupedCall::TagHint(_) => Ok(()),
            GroupedCall::BinaryEnd => Ok(()),
            GroupedCall::TextFragment(Fragment::Borrowed(text)) => self.write_fragment(text),
            GroupedCall::TextFragment(Fragment::Computed(text)) => self.write_fragment(text),
            GroupedCall::BinaryBegin(_) => self.begin_binary(),
            GroupedCall::BinaryFragment(Fragment::Borrowed(bytes)) => self.write_binary(bytes),
            GroupedCall::BinaryFragment(Fragment::Computed(bytes)) => self.write_binary(bytes),
            GroupedCall::EnumBegin(name) => self.begin_enum(name.label, name.index),
            GroupedCall::EnumEnd(name) => self.end_enum(name.tag, name.label, name.index),
            GroupedCall::TaggedBegin(name) => self.begin_tagged(name.tag, name.label, name.index),
            GroupedCall::TaggedEnd(name) => self.end_tagged(name.label, name.index),
            GroupedCall::Tag(name) => self.write_name(name.tag, name.label, name.index),
            GroupedCall::Begin(head, _) => self.begin_container(head),
            GroupedCall::End(head) => self.end_container(head),
            GroupedCall::PartBegin(slot) => self.begin_part(slot),
            GroupedCall::PartEnd(slot) => self.end_part(slot),
        }
    }
}
