//! The writer: a stream that writes a line of pairs to memory.

ghost use Rattle.std.specs.Prelude.{◌≡◌, ◌<◌, Ok, Err, IfOk, IfErr, string_bytes, length};
ghost use Rattle.std.specs.Str.{IsUtf8};
ghost use Rattle.sval_label.specs.Grouped.{text_call, grouped_call};
ghost use Rattle.sval_label.specs.Made.{lent_call};
ghost use Rattle.sval_core.specs.Law.{Answers};
ghost use Rattle.logfmt.specs.declared.LogfmtError.TheVariants as error;
ghost use Rattle.logfmt.specs.declared.writer.Due.TheVariants as due;
ghost use Rattle.logfmt.specs.Pairs.{is_key};
ghost use Rattle.logfmt.specs.Steps.{adds_text, key_step, space_after, step_at, logfmt_step};
ghost use Rattle.logfmt.specs.Writing.{Writing, DoesStep, GivesText, waiting, refused_for, nothing_written, cause_of, whole, writing_law, writing_standing};

use crate::LogfmtError;
use itoa::Buffer;
use std::alloc::Global;
use std::marker::Model;
use sval_core::{Call, Error, Fragment, GroupedCall, Head, Label, Lent, Result, Slot, Stream};
use sval_io::{SinkError, VecSink, write_all};
use sval_json::escape;

/// What comes next.
#[derive(Clone, Copy)]
pub(crate) enum Due {
    /// The record, or the struct.
    Line,
    /// A pair, or the end.
    Pair,
    /// A leaf.
    Value,
    /// More of a text, or its end.
    Text,
    /// The end of a value.
    ValueEnd,
    /// No call.
    Nothing,
}

/// Writes the line of one value.
#[derive(Drop)]
pub(crate) struct LogfmtWriter {
    due: Due,
    text: VecSink,
    /// The cause of the last refusal.
    why: Option<LogfmtError>,
}

impl Model for LogfmtWriter {
    ghost use Rattle.logfmt.specs.Writing.{Writing};

    ghost Value = { Writing };

    ghost view = { λ writer. record {
      begun = record { due = writer.due; text = writer.text.bytes };
      why = writer.why;
      wants = writer.text.wants;
    } };
}

/// Whether a text can be written in front of `=`: it isn't empty, and has no space, control character below the space,
/// quote or `=`.
///
/// ```
/// assert_eq!(rt; is_key(b"user.name".as_slice()), true);
/// assert_eq!(rt; is_key(b"user name".as_slice()), false);
/// ```
pub fn is_key(text: &[u8]) -> bool
    ensures { result ≡ is_key text.now }
{
    let fits = |byte: &u8| *byte > b' ' && *byte != b'"' && *byte != b'=';
    !text.is_empty() && text.iter().all(fits)
}

/// What is told where the text in memory declines, which it does for want of memory alone.
fn want_of(why: SinkError) -> LogfmtError
    requires { why ≡ SinkError.NoMemory }
    ensures { result ≡ LogfmtError.NoMemory }
{
    match why {
        SinkError::NoMemory => LogfmtError::NoMemory,
        SinkError::Failed => unreachable!("a text in memory declines for want of memory alone"),
    }
}

/// The bytes of a line as a text. Texts, labels and the marks between them give only bytes of UTF-8.
fn line_of(bytes: Vec<u8>) -> Result<String, LogfmtError>
    ensures line { IfOk result (λ line. string_bytes line ≡ bytes.items) }
    ensures not_text { IfErr result (λ why. (why ≡ LogfmtError.NoMemory) × ¬ (IsUtf8 bytes.items)) }
{
    match String::from_utf8(bytes) {
        Ok(line) => Ok(line),
        Err(_) => Err(LogfmtError::NoMemory),
    }
}

impl LogfmtWriter {
    /// One that has taken no call, and no memory yet.
    pub(crate) fn new(alloc: Global) -> Self
        ensures { result ≡ nothing_written }
    {
        LogfmtWriter {
            due: Due::Line,
            text: VecSink::new(alloc),
            why: None,
        }
    }

    /// The whole line.
    pub(crate) fn into_line(self) -> Result<String, LogfmtError>
        ensures line { GivesText string_bytes result (whole self.begun.due self.begun.text) }
        ensures memory { result ≡ Err error.NoMemory → 0 < length self.begun.text }
    {
        match self.due {
            Due::Nothing => line_of(self.text.into_vec()),
            _ => Err(LogfmtError::Unfinished),
        }
    }

    /// Why not all calls were taken, or that the value itself refused where they were.
    pub(crate) fn cause(&self) -> LogfmtError
        ensures { result ≡ cause_of self.now.why }
    {
        self.why.unwrap_or(LogfmtError::Refused)
    }

    /// Refuses a call.
    fn refuse(&mut self, why: LogfmtError) -> Result
        ensures refused { self.new ≡ refused_for why self.old }
        ensures answer { result ≡ Err (record {}) }
    {
        self.why = Some(why);
        Err(Error::new())
    }

    /// Writes nothing, and then this is due.
    fn wait_for(&mut self, due: Due) -> Result
        ensures waiting { self.new ≡ waiting due self.old }
        ensures answer { result ≡ Ok tt }
    {
        self.due = due;
        Ok(())
    }

    /// Writes these bytes, at least one. Then `due` is due.
    fn write(&mut self, bytes: &[u8], due: Due) -> Result
        requires { 0 < length bytes.now }
        ensures { DoesStep (adds_text self.old.begun.text bytes.now due) result self.old self.new }
    {
        match write_all(&mut self.text, bytes) {
            Ok(()) => self.wait_for(due),
            Err(why) => self.refuse(want_of(why)),
        }
    }

    /// Writes a part of a text, and then more of it is due.
    fn write_part(&mut self, part: Fragment<&str, &str>) -> Result
        ensures { let said = text_call (λ text. text.now) part.entry in
            DoesStep (step_at said due.Text self.old.begun.text) result self.old self.new }
    {
        let (Fragment::Borrowed(text) | Fragment::Computed(text)) = part;
        if text.is_empty() {
            return self.wait_for(Due::Text);
        }
        match escape::write_escaped(&mut self.text, text.as_bytes()) {
            Ok(()) => self.wait_for(Due::Text),
            Err(why) => self.refuse(want_of(why)),
        }
    }

    /// Writes a space, unless the line is empty.
    fn write_space(&mut self) -> Result
        ensures { DoesStep (adds_text self.old.begun.text (space_after self.old.begun.text) due.Pair) result
            self.old self.new }
    {
        match self.text.as_slice() {
            [] => self.wait_for(Due::Pair),
            _ => self.write(b" ", Due::Pair),
        }
    }

    /// Writes a space where the line isn't empty, a label as a key, and `=`.
    fn write_key(&mut self, label: &Label) -> Result
        ensures { DoesStep (key_step label.now.text self.old.begun.text) result self.old self.new }
    {
        let key = label.as_str().as_bytes();
        if !is_key(key) {
            return self.refuse(LogfmtError::InvalidKey);
        }
        self.write_space()?;
        self.write(key, Due::Pair)?;
        self.write(b"=", Due::Value)
    }

    /// Writes what is due of a call.
    fn step(&mut self, call: GroupedCall<'_, &str, &[u8]>) -> Result
        ensures { let said = grouped_call (λ text. text.now) (λ bytes. bytes.now) call.entry in
            DoesStep (logfmt_step said self.old.begun) result self.old self.new }
    {
        match (self.due, call) {
            (due, GroupedCall::TagHint(_)) => self.wait_for(due),
            (Due::Line, GroupedCall::Begin(Head::Record(_) | Head::RecordTuple(_), _)) => {
                self.wait_for(Due::Pair)
            }
            (
                Due::Pair,
                GroupedCall::PartBegin(Slot::Field(_, label) | Slot::FieldPlace(_, label, _)),
            ) => self.write_key(label),
            (Due::Pair, GroupedCall::End(Head::Record(_) | Head::RecordTuple(_))) => {
                self.wait_for(Due::Nothing)
            }
            (Due::Value, GroupedCall::Null) => self.write(b"null", Due::ValueEnd),
            (Due::Value, GroupedCall::Bool(true)) => self.write(b"true", Due::ValueEnd),
            (Due::Value, GroupedCall::Bool(false)) => self.write(b"false", Due::ValueEnd),
            (Due::Value, GroupedCall::Int(number)) => {
                let mut buffer = Buffer::new();
                self.write(number.format(&mut buffer).as_bytes(), Due::ValueEnd)
            }
            (Due::Value, GroupedCall::TextBegin(_)) => self.write(b"\"", Due::Text),
            (Due::Text, GroupedCall::TextFragment(part)) => self.write_part(part),
            (Due::Text, GroupedCall::TextEnd) => self.write(b"\"", Due::ValueEnd),
            (Due::ValueEnd, GroupedCall::PartEnd(Slot::Field(_, _) | Slot::FieldPlace(_, _, _))) =>
                self.wait_for(Due::Pair),
            _ => self.refuse(LogfmtError::NotFlat),
        }
    }
}

impl<'v> Stream<Lent<'v>> for LogfmtWriter {
    ghost View = { Writing };

    ghost law = { writing_law };

    ghost standing = { writing_standing };

    #[tactic(auto, using(crate::proofs::Runs::answers))]
    fn take(&mut self, call: Call<'v, '_>) -> Result
        ensures { Answers writing_law result (writing_standing self.old)
            (lent_call call.entry) (writing_standing self.new) }
    {
        self.step(call.grouped())
    }
}
