//! Inputs, one after the other: the run of the program for JSON.

ghost use Rattle.std.specs.Prelude.{◌≡◌, ℕ, List, [], OnOk, IfErr, IfSome};
ghost use Rattle.sval_tool.specs.Conversions.{WritesDue};
ghost use Rattle.sval_tool.specs.declared.inputs.Shape.TheVariants as shape;
ghost use Rattle.sval_tool.specs.ConvertedInputs.{AreInputsDue, ConvertsInput, StopsAtInput, StopsAtSource, StopsReadingAt};
ghost use Rattle.sval_tool.specs.ConvertedInputs.{TellInputs, convert_error_of};

use crate::convert::{Conversion, write_fed};
use crate::error::DocumentError;
use crate::lines::{LinesError, write_lines};
use crate::whole::read_whole;
use std::alloc::{AllocError, Global};
use std::collections::VecDeque;
use std::error::Error;
use std::fmt;
use sval_io::{Sink, Source};
use sval_lines::{LineError, Lines};

/// What an input is.
#[derive(Clone, Copy, Debug, PartialEq, Eq)]
pub enum Shape {
    /// One document.
    Document,
    /// A document in each line.
    Lines,
}

/// Why inputs weren't converted.
#[derive(Clone, Copy, Debug, PartialEq, Eq)]
pub enum ConvertError {
    /// An input wasn't read.
    Unread(LineError),
    /// What is due of a document wasn't written.
    Document(DocumentError),
    /// What is due of the line of this number wasn't written.
    Line { number: u64, why: DocumentError },
}

impl fmt::Display for ConvertError {
    ghost use Rattle.std.specs.Prelude.{Some};
    ghost use Rattle.sval_tool.specs.ErrorTexts.{convert_error_text};

    ghost output = { λ error. Some (convert_error_text error) };

    fn fmt<W: fmt::Write>(&self, f: &mut fmt::Formatter<W>) -> fmt::Result {
        match *self {
            ConvertError::Unread(why) => write!(f, "{why}"),
            ConvertError::Document(why) => write!(f, "{why}"),
            ConvertError::Line { number, why } => write!(f, "line {number}: {why}"),
        }
    }
}

impl Error for ConvertError {}

impl From<LineError> for ConvertError {
    ghost use Rattle.std.specs.Prelude.{◌≡◌};
    ghost use Rattle.sval_tool.specs.declared.inputs.ConvertError.TheVariants.{Unread};

    ghost from_gives = { λ why error. error ≡ Unread why };

    fn from(why: LineError) -> ConvertError {
        ConvertError::Unread(why)
    }
}

impl From<AllocError> for ConvertError {
    ghost use Rattle.std.specs.Prelude.{◌≡◌};
    ghost use Rattle.sval_lines.specs.declared.error.LineError.TheVariants.{NoMemory};
    ghost use Rattle.sval_tool.specs.declared.inputs.ConvertError.TheVariants.{Unread};

    ghost from_gives = { λ _ error. error ≡ Unread NoMemory };

    fn from(cause: AllocError) -> ConvertError {
        ConvertError::Unread(LineError::from(cause))
    }
}

/// The error of lines, as one of inputs.
fn of_lines(why: LinesError) -> ConvertError
    ensures { result ≡ convert_error_of why }
{
    match why {
        LinesError::Unread(why) => ConvertError::Unread(why),
        LinesError::Line { number, why } => ConvertError::Line { number, why },
    }
}

/// Converts an input that is one document. Its bytes are `bad` where it isn't converted.
fn convert_document<I: Source + Drop, K: Sink>(
    alloc: Global,
    conversion: &Conversion<'_>,
    mut source: I,
    bad: &mut Vec<u8>,
    out: &mut K,
) -> Result<(), ConvertError>
    ensures text { IfSome (I.told source).left (λ bytes.
        ConvertsInput K.told conversion.now shape.Document bytes result bad.new.items out.old out.new) }
    ensures err { IfErr result (λ why. StopsReadingAt I.told why source) }
{
    let bytes = read_whole(alloc, &mut source)?;
    match write_fed(alloc, conversion, bytes.as_slice(), out) {
        Ok(()) => Ok(()),
        Err(why) => {
            *bad = bytes;
            Err(ConvertError::Document(why))
        }
    }
}

/// Converts an input of lines. The bytes of the line that isn't converted are `bad`.
fn convert_lines<I: Source + Drop, K: Sink>(
    alloc: Global,
    conversion: &Conversion<'_>,
    source: I,
    bad: &mut Vec<u8>,
    out: &mut K,
) -> Result<(), ConvertError>
    ensures text { IfSome (I.told source).left (λ bytes.
        ConvertsInput K.told conversion.now shape.Lines bytes result bad.new.items out.old out.new) }
    ensures err { IfErr result (λ why. StopsReadingAt I.told why source) }
{
    let mut lines = Lines::new(alloc, source)?;
    match write_lines(alloc, conversion, &mut lines, out) {
        Ok(()) => Ok(()),
        Err(why) => {
            *bad = lines.into_line();
            Err(of_lines(why))
        }
    }
}

/// Converts one input. The bytes of the document or the line that isn't converted are `bad`.
fn convert_input<I: Source + Drop, K: Sink>(
    alloc: Global,
    conversion: &Conversion<'_>,
    form: Shape,
    source: I,
    bad: &mut Vec<u8>,
    out: &mut K,
) -> Result<(), ConvertError>
    ensures text { IfSome (I.told source).left (λ bytes.
        ConvertsInput K.told conversion.now form bytes result bad.new.items out.old out.new) }
    ensures err { IfErr result (λ why. StopsReadingAt I.told why source) }
{
    match form {
        Shape::Document => convert_document(alloc, conversion, source, bad, out),
        Shape::Lines => convert_lines(alloc, conversion, source, bad, out),
    }
}

/// Converts inputs, in their order, and takes each from the front of the sources.
///
/// Behind each document, and that of each line, a line feed is written, unless it is CBOR.
///
/// ```
/// let mut sources = VecDeque::new(alloc);
/// sources.push_back(MemSource::new(b"[1, 2]"))?;
/// sources.push_back(MemSource::new(b" {}"))?;
/// let mut bad = Vec::new(alloc);
/// let mut out = VecSink::new(alloc);
/// convert_all(alloc, &conversion, Shape::Document, &mut sources, &mut bad, &mut out)?;
/// assert_eq!(rt; out.as_slice(), b"[1,2]\n{}\n".as_slice());
/// ```
///
/// # Errors
///
/// [`ConvertError::Unread`] comes where an input wasn't read, [`ConvertError::Document`] where what is due of a document
/// wasn't written, and [`ConvertError::Line`] where that of the line of this number wasn't. Exactly what is due of the
/// inputs before was written then, and of the lines before. The sources that are left are those behind that input,
/// unchanged, and `bad` has the bytes of the document or line.
pub fn convert_all<I: Source + Drop, K: Sink>(
    alloc: Global,
    conversion: &Conversion<'_>,
    form: Shape,
    sources: &mut VecDeque<I>,
    bad: &mut Vec<u8>,
    out: &mut K,
) -> Result<(), ConvertError>
    ensures ok { OnOk result ((inputs : List (List ℕ)) → TellInputs I.told sources.old.items inputs
        → WritesDue (AreInputsDue conversion.now form inputs) (K.told out.old) (K.told out.new)) }
    ensures err { IfErr result (λ why. (inputs : List (List ℕ)) → TellInputs I.told sources.old.items inputs
        → StopsAtInput I.told K.told conversion.now form inputs sources.new.items why bad.new.items out.old out.new) }
    ensures taken { OnOk result (sources.new.items ≡ []) }
    ensures behind { IfErr result (λ why. StopsAtSource I.told why sources.old.items sources.new.items) }
{
    while let Some(source) = sources.pop_front() {
        convert_input(alloc, conversion, form, source, bad, out)?;
    }
    Ok(())
}
