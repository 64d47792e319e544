//! Lines, each a document.

ghost use Rattle.std.specs.Prelude.{◌≡◌, ◌<◌, ◌-◌, ◌^◌, OnOk, IfOk, IfErr, IfSome};
ghost use Rattle.sval_lines.specs.SeenLines.{bytes_left, supply_of_lines, last_line, lines_taken};
ghost use Rattle.sval_lines.specs.SourceLines.{number_behind};
ghost use Rattle.sval_tool.specs.Conversions.{WritesDue, IsDocumentCause};
ghost use Rattle.sval_tool.specs.ConvertedLines.{IsLineDue};
ghost use Rattle.sval_tool.specs.ConvertedLines.{ConvertsOne, ConvertsLines, HasLinesCause, IsNumberedBehind};

use crate::convert::{Conversion, write_fed};
use crate::error::DocumentError;
use std::alloc::Global;
use std::error::Error;
use std::fmt;
use sval_io::{Sink, Source};
use sval_lines::{LineError, Lines};

/// Why lines weren't converted.
#[derive(Clone, Copy, Debug, PartialEq, Eq)]
pub enum LinesError {
    /// A line wasn't read.
    Unread(LineError),
    /// What is due of the line of this number wasn't written.
    Line { number: u64, why: DocumentError },
}

impl fmt::Display for LinesError {
    ghost use Rattle.std.specs.Prelude.{Some};
    ghost use Rattle.sval_tool.specs.ErrorTexts.{lines_error_text};

    ghost output = { λ error. Some (lines_error_text error) };

    fn fmt<W: fmt::Write>(&self, f: &mut fmt::Formatter<W>) -> fmt::Result {
        match *self {
            LinesError::Unread(why) => write!(f, "{why}"),
            LinesError::Line { number, why } => write!(f, "line {number}: {why}"),
        }
    }
}

impl Error for LinesError {}

impl From<LineError> for LinesError {
    ghost use Rattle.std.specs.Prelude.{◌≡◌};
    ghost use Rattle.sval_tool.specs.declared.lines.LinesError.TheVariants.{Unread};

    ghost from_gives = { λ why error. error ≡ Unread why };

    fn from(why: LineError) -> LinesError {
        LinesError::Unread(why)
    }
}

/// Writes what is due of a line: of an empty one nothing, and else its document, with a line feed behind JSON.
fn write_line<K: Sink>(
    alloc: Global,
    conversion: &Conversion<'_>,
    line: &[u8],
    out: &mut K,
) -> Result<(), DocumentError>
    ensures ok { OnOk result (WritesDue (IsLineDue conversion.now line.now) (K.told out.old) (K.told out.new)) }
    ensures err { let c = conversion.now in IfErr result (λ why.
        IsDocumentCause K.told c (IsLineDue c line.now) line.now why out.old out.new) }
{
    if line.is_empty() {
        return Ok(());
    }
    write_fed(alloc, conversion, line, out)
}

/// Takes the next line and writes what is due of it. `false` means that there is none.
fn convert_line<I: Source + Drop, K: Sink>(
    alloc: Global,
    conversion: &Conversion<'_>,
    lines: &mut Lines<I>,
    out: &mut K,
) -> Result<bool, LinesError>
    ensures lines { IfSome (bytes_left I.told lines.old)
        (λ bytes. ConvertsOne K.told conversion.now bytes result
        (last_line lines.new) (bytes_left I.told lines.new)
        out.old out.new) }
    ensures faults { OnOk result
        ((supply_of_lines I.told lines.new).faults ≡ (supply_of_lines I.told lines.old).faults) }
    ensures err { IfErr result (λ why.
        HasLinesCause why (lines_taken lines.new)
        (supply_of_lines I.told lines.old) (supply_of_lines I.told lines.new)) }
    ensures number { IfOk result (λ found. lines_taken lines.new ≡ number_behind found (lines_taken lines.old)) }
    ensures numbered { IfErr result (λ why. IsNumberedBehind (lines_taken lines.old) why) }
    ensures below { OnOk result (lines_taken lines.old < 2 ^ 64 - 1) }
{
    if !lines.take_line()? {
        return Ok(false);
    }
    match write_line(alloc, conversion, lines.line(), out) {
        Ok(()) => Ok(true),
        Err(why) => Err(LinesError::Line {
            number: lines.number(),
            why,
        }),
    }
}

/// Converts the document in each line, and writes a line feed behind each that is JSON.
///
/// An empty line is passed over. The last line may have no line feed. At most one line and its document are kept.
///
/// ```
/// let mut lines = Lines::new(alloc, MemSource::new(b"[1, 2]\n\n{}"))?;
/// let mut out = VecSink::new(alloc);
/// write_lines(alloc, &conversion, &mut lines, &mut out)?;
/// assert_eq!(rt; out.as_slice(), b"[1,2]\n{}\n".as_slice());
/// ```
///
/// # Errors
///
/// [`LinesError::Unread`] comes where a line wasn't read, and [`LinesError::Line`] where what is due of a line wasn't
/// written, with its number. Exactly what is due of the lines before it was written then. [`Lines::line`] has the bytes
/// of the bad line.
pub fn write_lines<I: Source + Drop, K: Sink>(
    alloc: Global,
    conversion: &Conversion<'_>,
    lines: &mut Lines<I>,
    out: &mut K,
) -> Result<(), LinesError>
    ensures lines { IfSome (bytes_left I.told lines.old)
        (λ bytes. ConvertsLines K.told conversion.now bytes (lines_taken lines.old) result
        (last_line lines.new) (bytes_left I.told lines.new)
        out.old out.new) }
    ensures faults { OnOk result
        ((supply_of_lines I.told lines.new).faults ≡ (supply_of_lines I.told lines.old).faults) }
    ensures err { IfErr result (λ why.
        HasLinesCause why (lines_taken lines.new)
        (supply_of_lines I.told lines.old) (supply_of_lines I.told lines.new)) }
{
    while convert_line(alloc, conversion, lines, out)? {}
    Ok(())
}
