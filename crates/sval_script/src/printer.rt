//! A stream that prints calls as the lines of a script.

mod digits;
mod fields;
mod known;
mod words;

ghost use Rattle.std.specs.Prelude.{◌≡◌, None};
ghost use Rattle.sval_label.specs.Made.{lent_call};
ghost use Rattle.sval_label.specs.Grouped.{grouped_call};
ghost use Rattle.sval_core.specs.Law.{Answers};
ghost use Rattle.sval_io.specs.Sinks.{WritesAll};
ghost use Rattle.sval_script.specs.Printing.{Printing, PrintsLine, last_error, printer_law, printer_standing, printer_sink, whole_line};

use crate::print_error::PrintError;
use crate::printer::fields::write_fields;
use crate::printer::known::knows_tags;
use crate::printer::words::{bare_line, word};
use sval_core::{Call, Error, GroupedCall, Lent, Stream};
use sval_io::{FixedSink, Sink, SinkError, write_all, write_in_place};

/// A stream that writes each call as its line of a script, with a line feed.
///
/// A line shows all that its call says but whether a label is static: sizes and hints too, and a computed fragment as
/// one. So the lines of printed calls read back as these calls, which [`laws`](crate::laws) say exactly.
///
/// It accepts a call where each tag of the call is one of the ten that scripts name and where its line has room in the
/// sink. A call with another tag is refused before anything of it is written. Where the sink refuses, it took a first
/// part of the line. The counts are those of the sink, and no memory is taken but the sink's.
///
/// ```
/// let mut printer = Printer::new(VecSink::new(alloc));
/// printer.seq_begin(Some(1))?;
/// printer.seq_value_begin()?;
/// printer.i32(-7)?;
/// printer.seq_value_end()?;
/// printer.seq_end()?;
/// let script = printer.into_inner();
/// assert_eq!(rt; script.as_slice(), b"seq_begin 1\nseq_value_begin\ni32 -7\nseq_value_end\nseq_end\n".as_slice());
/// ```
#[derive(Drop)]
pub struct Printer<K> {
    out: K,
    /// The cause of the last refusal.
    why: Option<PrintError>,
}

impl<K: Sink> Printer<K> {
    /// A printer to a sink, which has refused no call yet.
    pub fn new(out: K) -> Self
        ensures sink { printer_sink result ≡ out }
        ensures why { last_error result ≡ None }
    {
        Printer { out, why: None }
    }

    /// The cause of the last refusal. A call that is accepted leaves it.
    pub fn why(&self) -> Option<PrintError>
        ensures { result ≡ last_error self.now }
    {
        self.why
    }

    /// The sink, with what was printed.
    pub fn into_inner(self) -> K
        ensures { result ≡ printer_sink self }
    {
        self.out
    }
}

/// How many bytes of a line are joined on the stack at most.
const ROOM: usize = 128;

/// Writes the line of a call, piece by piece.
fn write_pieces<K: Sink>(sink: &mut K, call: GroupedCall<'_, &str, &[u8]>) -> Result<(), SinkError>
    ensures { let said = grouped_call (λ text. text.now) (λ bytes. bytes.now) call.entry in
        WritesAll result (K.told sink.old) (whole_line said) (K.told sink.new) }
{
    write_all(sink, word(call))?;
    write_fields(sink, call)?;
    write_all(sink, b"\n")
}

/// Writes the line of a call, as one piece where it is short.
fn write_line<K: Sink>(sink: &mut K, call: GroupedCall<'_, &str, &[u8]>) -> Result<(), SinkError>
    ensures { let said = grouped_call (λ text. text.now) (λ bytes. bytes.now) call.entry in
        WritesAll result (K.told sink.old) (whole_line said) (K.told sink.new) }
{
    if let Some(line) = bare_line(call) {
        return write_in_place(sink, line);
    }
    let mut buffer = [0; ROOM];
    let mut joined = FixedSink::new(&mut buffer);
    match write_pieces(&mut joined, call) {
        Ok(()) => write_in_place(sink, joined.as_slice()),
        Err(_) => write_pieces(sink, call),
    }
}

/// Writes the line of a call, if each of its tags is one of the ten.
pub(crate) fn print_call<K: Sink>(
    sink: &mut K,
    call: GroupedCall<'_, &str, &[u8]>,
) -> Result<(), PrintError>
    ensures { let said = grouped_call (λ text. text.now) (λ bytes. bytes.now) call.entry in
        PrintsLine result (K.told sink.old) said (K.told sink.new) }
{
    if !knows_tags(call) {
        return Err(PrintError::UnknownTag);
    }
    write_line(sink, call)?;
    Ok(())
}

impl<'v, K: Sink> Stream<Lent<'v>> for Printer<K> {
    ghost View = { Printing };

    ghost law = { printer_law };

    ghost standing = { printer_standing K.told };

    fn take(&mut self, call: Call<'v, '_>) -> sval_core::Result
        ensures { Answers printer_law result
            (printer_standing K.told self.old) (lent_call call.entry) (printer_standing K.told self.new) }
    {
        match print_call(&mut self.out, call.grouped()) {
            Ok(()) => Ok(()),
            Err(why) => {
                self.why = Some(why);
                Err(Error::new())
            }
        }
    }
}
