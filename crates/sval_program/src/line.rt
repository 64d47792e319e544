//! Lines for the third device.

ghost use Rattle.std.specs.Prelude.{◌≡◌, ◌++◌, decimal};
ghost use Rattle.sval_io.specs.Sinks.{WritesAll};
ghost use Rattle.sval_program.specs.Reports.{TellsLine, line_text, shown};

use itoa::Buffer;
use std::fmt;
use std::marker::Model;
use sval_io::{Sink, SinkError, write_all};

/// A line that says why a program failed, seen as its bytes. It may have a number in it, as that of a line.
///
/// ```
/// let mut diag = VecSink::new(alloc);
/// tell(&Line::numbered("line ", 7, ": not a call\n"), &mut diag);
/// assert_eq!(rt; diag.as_slice(), b"line 7: not a call\n".as_slice());
/// ```
#[derive(Drop)]
pub struct Line {
    before: &'static str,
    number: Option<u64>,
    after: &'static str,
}

impl Model for Line {
    ghost use Rattle.std.specs.Prelude.{◌≡◌, ◌++◌, ℕ, List, [], None};
    ghost use Rattle.sval_program.specs.Reports.{shown};

    ghost Value = { List ℕ };

    ghost view = { λ line. line.before.now ++ (shown line.number ++ line.after.now) };

    ghost invariant = { λ line. line.number ≡ None → line.before.now ≡ [] };
}

/// Prints the line without the line feed at its end.
impl fmt::Display for Line {
    ghost use Rattle.std.specs.Prelude.{Some};

    ghost output = { λ line. Some (line_text line) };

    #[tactic(auto, using(crate::proofs::LineTexts::line_without_number, crate::proofs::LineTexts::numbered_line))]
    fn fmt<W: fmt::Write>(&self, f: &mut fmt::Formatter<W>) -> fmt::Result {
        let after = without_line_feed(self.after);
        match self.number {
            None => f.write_str(after),
            Some(number) => write!(f, "{}{number}{after}", self.before),
        }
    }
}

/// The text without the line feed at its end, if it has one.
fn without_line_feed(text: &str) -> &str
    ensures { result.now ≡ line_text text.now }
{
    text.strip_suffix('\n').unwrap_or(text)
}

impl Line {
    /// A line that is this text. No line feed is added, so the text brings its own.
    pub fn text(text: &'static str) -> Self
        ensures { result ≡ text.now }
    {
        Line {
            before: "",
            number: None,
            after: text,
        }
    }

    /// A line with a number between two texts, as a decimal. No line feed is added, so the second text brings its own.
    pub fn numbered(before: &'static str, number: u64, after: &'static str) -> Self
        ensures { result ≡ before.now ++ (decimal number ++ after.now) }
    {
        Line {
            before,
            number: Some(number),
            after,
        }
    }

    /// Writes this line.
    fn write<D: Sink>(&self, diag: &mut D) -> Result<(), SinkError>
        ensures { WritesAll result (D.told diag.old) self.now (D.told diag.new) }
    {
        write_all(diag, self.before.as_bytes())?;
        write_number(diag, self.number)?;
        write_all(diag, self.after.as_bytes())
    }

    /// Writes this line, and passes it on.
    fn report<D: Sink>(&self, diag: &mut D) -> Result<(), SinkError>
        ensures { TellsLine (D.told diag.old) self.now (D.told diag.new) }
    {
        self.write(diag)?;
        diag.flush()
    }
}

/// Writes a number in decimal, if there is one.
fn write_number<D: Sink>(diag: &mut D, number: Option<u64>) -> Result<(), SinkError>
    ensures { WritesAll result (D.told diag.old) (shown number) (D.told diag.new) }
{
    match number {
        None => Ok(()),
        Some(number) => write_all(diag, Buffer::new().format(number).as_bytes()),
    }
}

/// Tells the third device a line, and passes it on. What the device answers changes nothing.
pub fn tell<D: Sink>(line: &Line, diag: &mut D)
    ensures { TellsLine (D.told diag.old) line.now (D.told diag.new) }
{
    // Nothing is left to tell where even this fails.
    let _ = line.report(diag);
}
