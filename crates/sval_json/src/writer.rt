//! The writer: a stream that writes JSON to a sink.

mod names;
mod parts;
mod short;
mod tagged;
mod texts;

ghost use Rattle.std.specs.Prelude.{◌≡◌, ◌++◌, Some, OnErr, codes};
ghost use Rattle.std.specs.Bool.{OnTrue};
ghost use Rattle.std.specs.Fmt.{signed_decimal};
ghost use Rattle.sval_label.specs.Grouped.{grouped_call, int_number};
ghost use Rattle.sval_label.specs.Made.{lent_call};
ghost use Rattle.sval_core.specs.Law.{Answers, Emits};
ghost use Rattle.sval_core.specs.Values.{makes, whole_text_calls, whole_key_calls};
ghost use Rattle.sval_io.specs.Sinks.{IsFull};
ghost use Rattle.sval_json.specs.ErrorKinds.{seen_refusal, error_kind};
ghost use Rattle.sval_json.specs.Escape.{escaped};
ghost use Rattle.sval_json.specs.Actions.{write, refuse, escapes, ◌sets◌, set_empty, is_first_at};
ghost use Rattle.sval_json.specs.SeenWriter.{quoted_text, seen_handler};
ghost use Rattle.sval_json.specs.Steps.{value_written, refuse_in_key, opens, closes};
ghost use Rattle.sval_json.specs.WriterLaw.{WriterView, Does, step_law, writer_law, writer_state, writer_view, writer_standing};
ghost use Rattle.sval_json.specs.WriterLaw.{fresh_writer, sink_of, stop_of};

use crate::error::{Error as JsonError, Refusal, Stop};
use crate::escape::write_escaped;
use crate::number::NumberMachine;
use crate::passed::{call_is_real, end_is_real, text_is_real};
use crate::style::Variants;
use crate::writer::short::{Quoted, push_between, push_plain};
use arrayvec::ArrayString;
use itoa::Buffer;
use sval_core::{Call, Error, Fragment, GroupedCall, Int, Lent, Result, Slot, Stream};
use sval_io::{Sink, SinkError, write_all, write_in_place};

/// What happens to the fragments of a text.
#[derive(Clone, Copy)]
pub(crate) enum Handler {
    /// They are escaped.
    Escapes,
    /// They are written unchanged.
    Copies,
    /// A number goes on with them.
    Reads(NumberMachine),
}

/// A stream that writes the JSON of its calls to a sink, without white space.
///
/// It writes each call as it comes. So it goes behind a stream that changes or checks calls, and nothing is captured:
/// behind a `Filter` of `sval_filter`, or a `Checked` of `sval_check`. It trusts that calls, ends and sizes are right,
/// as [`stream_to_io_write`](crate::stream_to_io_write) does. Calls that spell no value may write text that is no JSON.
///
/// A call is refused where the text so far, with it, is no JSON for one of two causes: a key that can't be one, or a
/// number that is none. It is also refused where the sink declines. [`error`](JsonWriter::error) then tells the cause.
/// It is for one value, and no call may come after a refused one: what was written ends within that.
///
/// ```
/// let mut sink = VecSink::new(alloc);
/// let mut writer = JsonWriter::new(&mut sink, Variants::Inside);
/// writer.seq_begin(None)?;
/// writer.seq_value_begin()?;
/// writer.i32(-7)?;
/// writer.seq_value_end()?;
/// writer.seq_end()?;
/// let sink = writer.into_sink();
/// assert_eq!(rt; sink.as_slice(), b"[-7]".as_slice());
/// ```
///
/// The sink takes what `written_in` of `specs/Steps.antt` says of the calls. That this is what the law means is proved
/// in [`laws::writer_laws`](crate::laws::writer_laws).
// Each private method does the action of the steps that its clause names, or a first part of it where something stops
// it.
#[derive(Drop)]
pub struct JsonWriter<'k, K: Sink> {
    pub(crate) sink: &'k mut K,
    /// How a variant's name is written.
    pub(crate) variants: Variants,
    /// A variant's name may be due, or a variant with an object around it was just ended.
    pub(crate) named: bool,
    /// Nothing is written yet in what was begun last.
    pub(crate) empty: bool,
    /// A text brings its quotes, which it does not in a key or in a number.
    pub(crate) quoted: bool,
    /// What happens to the fragments of a text.
    pub(crate) handler: Handler,
    /// What stopped it, if something did.
    pub(crate) why: Option<Stop>,
}

impl<'k, K: Sink> JsonWriter<'k, K> {
    /// A writer to this sink, with the variants of enums in this style, which has taken no call.
    pub fn new(sink: &'k mut K, variants: Variants) -> Self
        ensures { result ≡ fresh_writer sink.entry variants }
    {
        JsonWriter {
            sink,
            variants,
            named: false,
            empty: true,
            quoted: true,
            handler: Handler::Escapes,
            why: None,
        }
    }

    /// Why a value wasn't written, or not whole: what stopped the writer, or else the value itself.
    ///
    /// It is for a value that was refused; of any other it is [`ErrorKind::Generic`](crate::ErrorKind::Generic).
    pub fn error(&self) -> JsonError
        ensures { result ≡ error_kind (stop_of self.now) }
    {
        JsonError::of(self.why)
    }

    /// Whether the next item or key is the first one, which has no comma before it. It is `None` within a key, a number
    /// or raw text, and where the name of a variant may be due.
    pub fn is_first(&self) -> Option<bool>
        ensures { result ≡ is_first_at (writer_state self.now) }
    {
        match self.handler {
            Handler::Escapes if self.quoted && !self.named => Some(self.empty),
            _ => None,
        }
    }

    /// Writes the JSON of some calls that a caller has put together, as `CborDoc::write_json` of `sval_cbor_read` does
    /// for short items. `is_first` says whether the next item or key is the first one behind it.
    ///
    /// It trusts that the text is what the writer would write for these calls.
    pub fn write_joined(&mut self, text: &[u8], is_first: bool) -> Result
        ensures { Does (write text.now sets set_empty is_first) result
            (writer_view K.told self.old) (writer_view K.told self.new) }
    {
        self.write(text)?;
        self.empty = is_first;
        Ok(())
    }

    /// The sink, with what was written.
    pub fn into_sink(self) -> &'k mut K
        ensures { result ≡ sink_of self.entry }
    {
        self.sink
    }

    /// Writes these bytes as they are.
    fn write(&mut self, bytes: &[u8]) -> Result
        ensures { Does (write bytes.now) result (writer_view K.told self.old) (writer_view K.told self.new) }
    {
        match write_all(self.sink, bytes) {
            Ok(()) => Ok(()),
            Err(why) => {
                self.why = Some(Stop::Sink(why));
                Err(Error::new())
            }
        }
    }

    /// Writes a few bytes within its caller: a mark of a byte or two, or what several calls write together. Where the
    /// sink failed, it has no room left, if it tells its room.
    #[inline(always)]
    fn write_few(&mut self, bytes: &[u8]) -> Result
        ensures does { Does (write bytes.now) result (writer_view K.told self.old) (writer_view K.told self.new) }
        ensures full { OnErr result
            (self.new.why ≡ Some (Stop.Sink SinkError.Failed) → IsFull (K.told self.new.sink.now)) }
    {
        match write_in_place(self.sink, bytes) {
            Ok(()) => Ok(()),
            Err(why) => {
                self.why = Some(Stop::Sink(why));
                Err(Error::new())
            }
        }
    }

    /// Whether the fragments of a text are escaped.
    fn escapes(&self) -> bool
        ensures { OnTrue result (seen_handler self.now.handler ≡ escapes) }
    {
        matches!(self.handler, Handler::Escapes)
    }

    /// Writes a text with its escapes, and without quotes.
    fn write_escaped(&mut self, text: &[u8]) -> Result
        ensures { Does (write (escaped text.now)) result (writer_view K.told self.old) (writer_view K.told self.new) }
    {
        match write_escaped(self.sink, text) {
            Ok(()) => Ok(()),
            Err(why) => {
                self.why = Some(Stop::Sink(why));
                Err(Error::new())
            }
        }
    }

    /// Writes a text that comes between quotes, with the marks before and after it. It is one piece, if it is short and
    /// nothing is escaped.
    #[inline(always)]
    fn write_between(&mut self, before: &str, text: Quoted, after: &str) -> Result
        ensures { Does (write (before.now ++ quoted_text text.entry ++ after.now)) result
            (writer_view K.told self.old) (writer_view K.told self.new) }
    {
        let mut joined = ArrayString::new();
        if push_between(&mut joined, before, text.text, after) && text.is_plain() {
            return self.write(joined.as_bytes());
        }
        self.write_each(before.as_bytes(), text, after.as_bytes())
    }

    /// Writes a text that comes between quotes: one piece for `before`, the runs and escapes of the text, and one for
    /// `after`.
    #[inline(never)]
    fn write_each(&mut self, before: &[u8], text: Quoted, after: &[u8]) -> Result
        ensures { Does (write (before.now ++ quoted_text text.entry ++ after.now)) result
            (writer_view K.told self.old) (writer_view K.told self.new) }
    {
        self.write(before)?;
        self.write_quoted(text)?;
        self.write(after)
    }

    /// Writes a text that comes between quotes.
    fn write_quoted(&mut self, text: Quoted) -> Result
        ensures { Does (write (quoted_text text.entry)) result
            (writer_view K.told self.old) (writer_view K.told self.new) }
    {
        if text.raw {
            return self.write(text.text.as_bytes());
        }
        self.write_escaped(text.text.as_bytes())
    }

    /// Refuses a call.
    fn refuse(&mut self, why: Refusal) -> Result
        ensures { Does (refuse (seen_refusal why)) result
            (writer_view K.told self.old) (writer_view K.told self.new) }
    {
        self.why = Some(Stop::Step(why));
        Err(Error::new())
    }

    /// Refuses what can't be in a key.
    fn refuse_in_key(&mut self) -> Result
        ensures { Does refuse_in_key result (writer_view K.told self.old) (writer_view K.told self.new) }
    {
        if self.quoted {
            return Ok(());
        }
        self.refuse(Refusal::InvalidKey)
    }

    /// Writes a simple value.
    fn write_value(&mut self, bytes: &[u8]) -> Result
        ensures { Does (value_written bytes.now) result (writer_view K.told self.old) (writer_view K.told self.new) }
    {
        self.empty = false;
        self.write(bytes)
    }

    /// Writes the word `null`.
    #[inline(always)]
    fn write_null(&mut self) -> Result
        ensures { Does (value_written (codes "null")) result
            (writer_view K.told self.old) (writer_view K.told self.new) }
    {
        self.empty = false;
        self.write_few(b"null")
    }

    /// Writes a whole number.
    #[inline(never)]
    fn write_int(&mut self, number: Int) -> Result
        ensures { Does (value_written (signed_decimal (int_number number))) result
            (writer_view K.told self.old) (writer_view K.told self.new) }
    {
        let mut buffer = Buffer::new();
        self.write_value(number.format(&mut buffer).as_bytes())
    }

    /// Opens what can hold other values.
    #[inline(always)]
    fn open(&mut self, bracket: &[u8]) -> Result
        ensures { Does (opens bracket.now) result (writer_view K.told self.old) (writer_view K.told self.new) }
    {
        self.refuse_in_key()?;
        self.empty = true;
        self.write_few(bracket)
    }

    /// Closes what was opened.
    #[inline(always)]
    fn close(&mut self, bracket: &[u8]) -> Result
        ensures { Does (closes bracket.now) result (writer_view K.told self.old) (writer_view K.told self.new) }
    {
        self.empty = false;
        self.write_few(bracket)
    }

    /// Does what a call's step does.
    #[inline(always)]
    fn take_grouped(&mut self, call: GroupedCall<'_, &str, &[u8]>) -> Result
        ensures { Answers step_law result (writer_standing K.told self.old)
            (grouped_call (λ text. text.now) (λ bytes. bytes.now) call.entry) (writer_standing K.told self.new) }
    {
        match call {
            GroupedCall::Null => self.write_null(),
            GroupedCall::Bool(true) => self.write_value(b"true"),
            GroupedCall::Bool(false) => self.write_value(b"false"),
            GroupedCall::Int(number) => self.write_int(number),
            GroupedCall::TextBegin(_) => self.begin_text(),
            GroupedCall::TextFragment(Fragment::Borrowed(text) | Fragment::Computed(text)) => {
                self.write_fragment(text)
            }
            GroupedCall::TextEnd => self.quote(),
            GroupedCall::BinaryBegin(_) => self.open(b"["),
            GroupedCall::BinaryFragment(Fragment::Borrowed(bytes) | Fragment::Computed(bytes)) => {
                self.write_bytes(bytes)
            }
            GroupedCall::BinaryEnd => self.close(b"]"),
            GroupedCall::EnumBegin(name) => self.begin_enum(name.label, name.index),
            GroupedCall::EnumEnd(name) => self.end_enum(name.tag, name.label, name.index),
            GroupedCall::TaggedBegin(name) => self.begin_tagged(name.tag, name.label, name.index),
            GroupedCall::TaggedEnd(name) => self.end_tagged(name.tag, name.label, name.index),
            GroupedCall::Tag(name) => self.write_name(name.tag, name.label, name.index),
            GroupedCall::TagHint(_) => Ok(()),
            GroupedCall::Begin(head, _) => self.begin_container(head),
            GroupedCall::End(head) => self.end_container(head),
            GroupedCall::PartBegin(slot) => self.begin_part(slot),
            GroupedCall::PartEnd(slot) => self.end_part(slot),
        }
    }

    /// Takes a text of one fragment, call by call.
    fn take_text(&mut self, text: &str, size: Option<usize>) -> Result
        ensures { Emits step_law result (writer_standing K.told self.old)
            (makes (whole_text_calls size text.now)) (writer_standing K.told self.new) }
    {
        self.take_grouped(GroupedCall::TextBegin(size))?;
        self.take_grouped(GroupedCall::TextFragment(Fragment::Borrowed(text)))?;
        self.take_grouped(GroupedCall::TextEnd)
    }

    /// Takes a key that is a text of one fragment, call by call.
    fn take_text_key(&mut self, text: &str, size: Option<usize>) -> Result
        ensures { Emits step_law result (writer_standing K.told self.old)
            (makes (whole_key_calls size text.now)) (writer_standing K.told self.new) }
    {
        self.take_grouped(GroupedCall::PartBegin(Slot::Key))?;
        self.take_grouped(GroupedCall::TextBegin(size))?;
        self.take_grouped(GroupedCall::TextFragment(Fragment::Borrowed(text)))?;
        self.take_grouped(GroupedCall::TextEnd)?;
        self.take_grouped(GroupedCall::PartEnd(Slot::Key))
    }
}

impl<'k, 'sval, K: Sink> Stream<Lent<'sval>> for JsonWriter<'k, K> {
    ghost View = { WriterView };

    ghost law = { writer_law };

    ghost standing = { writer_standing K.told };

    #[inline(always)]
    #[tactic(auto, using(crate::proofs::Passing::text_passed))]
    fn whole_text(&mut self, text: &'sval str, size: Option<usize>) -> Result
        ensures { Emits writer_law result (writer_standing K.told self.old)
            (makes (whole_text_calls size text.now)) (writer_standing K.told self.new) }
    {
        text_is_real(text);
        let mut joined = ArrayString::new();
        if self.quoted && self.escapes() && push_plain(&mut joined, "\"", text, "\"") {
            self.empty = false;
            return self.write_few(joined.as_bytes());
        }
        self.take_text(text, size)
    }

    #[inline(always)]
    #[tactic(auto, using(crate::proofs::Passing::key_passed))]
    fn whole_text_key(&mut self, text: &'sval str, size: Option<usize>) -> Result
        ensures { Emits writer_law result (writer_standing K.told self.old)
            (makes (whole_key_calls size text.now)) (writer_standing K.told self.new) }
    {
        text_is_real(text);
        let mut joined = ArrayString::new();
        if self.escapes() && push_plain(&mut joined, ",\"", text, "\":") {
            let no_comma = if self.empty { 1 } else { 0 };
            self.named = false;
            self.empty = false;
            self.quoted = true;
            return self.write_few(&joined.as_bytes()[no_comma..]);
        }
        self.take_text_key(text, size)
    }

    #[inline(always)]
    #[tactic(auto, using(crate::proofs::Passing::answers_passed))]
    fn take(&mut self, call: Call<'sval, '_>) -> Result
        ensures { Answers writer_law result
            (writer_standing K.told self.old) (lent_call call.entry) (writer_standing K.told self.new) }
    {
        let call = call.grouped();
        call_is_real(call);
        end_is_real(call);
        self.take_grouped(call)
    }
}
