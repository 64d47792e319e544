//! Scripts that come piece by piece.

ghost use Rattle.std.specs.Prelude.{◌≡◌, [], ℕ, List, ◌++◌, ◌<◌, ◌^◌, length, IsSome, IfSome, IsOk, OnOk, IfOk, IfErr};
ghost use Rattle.sval_script.specs.Lines.{lines};
ghost use Rattle.sval_script.specs.LineCalls.{stored};
ghost use Rattle.sval_script.specs.Readings.{answer_to, answer_with, TakesPiece, StopsAtBadLine};
ghost use Rattle.sval_script.specs.ReadLines.{line_calls, lines_with, StoreHoldsLines, EndsLine, ReadsLinesOn, IsFirstBadLine, AreReadLines, EndsIn, ReadsPiece};
ghost use Rattle.sval_script.specs.ReadLines.{NamesBadLine};

use crate::field::LineError;
use crate::known::KnownLines;
use crate::line::{Line, read_line};
use crate::script::{Script, ScriptError};
use crate::store::Store;
use memchr::{memchr, memrchr};
use std::alloc::Global;
use std::marker::Model;

/// The lines that were read, and the one that is begun.
#[derive(Drop)]
pub(crate) struct ReadLines {
    lines: Vec<Line>,
    store: Store,
    /// The bytes behind the last line feed.
    begun: Vec<u8>,
    /// Lines that were read lately.
    known: KnownLines,
}

/// Reads whole lines behind those that were read.
fn read_lines(
    lines: &mut Vec<Line>,
    store: &mut Store,
    known: &mut KnownLines,
    bytes: &[u8],
) -> Result<(), ScriptError>
    requires holds { StoreHoldsLines lines.old.items (stored store.old) }
    requires whole { EndsLine bytes.now }
    ensures read { OnOk result (ReadsLinesOn lines.old.items (stored store.old) bytes.now
        lines.new.items (stored store.new)) }
    ensures bad { IfErr result (IsFirstBadLine (line_calls lines.old.items (stored store.old)) bytes.now) }
{
    let mut rest = bytes;
    while !rest.is_empty() {
        let line = lines.len() as u64 + 1;
        let (made, behind) = match read_line(store, known, rest) {
            Ok(read) => read,
            Err(LineError::Bad) => return Err(ScriptError::BadLine { line }),
            Err(LineError::NoMemory) => return Err(ScriptError::NoMemory),
        };
        lines.push(made)?;
        rest = behind;
    }
    Ok(())
}

impl ReadLines {
    /// No line, which takes no memory yet.
    fn new(alloc: Global) -> ReadLines
        ensures lines { result.lines.items ≡ [] }
        ensures bytes { result.store.bytes.items ≡ [] }
        ensures numbers { result.store.numbers.items ≡ [] }
        ensures begun { result.begun.items ≡ [] }
    {
        ReadLines {
            lines: Vec::new(alloc),
            store: Store::new(alloc),
            begun: Vec::new(alloc),
            known: KnownLines::new(alloc),
        }
    }

    /// Ends the line that is begun, if there is one, with the first of whole lines, and answers what follows it.
    fn end_line<'a>(&mut self, whole: &'a [u8]) -> Result<&'a [u8], ScriptError>
        requires read { AreReadLines self.old }
        requires whole { EndsLine whole.now }
        requires some { 0 < length whole.now }
        ensures ended { IfOk result (λ behind. EndsIn self.old whole.now behind.now self.new) }
        ensures bad { IfErr result (IsFirstBadLine (line_calls self.old.lines.items (stored self.old.store))
            (self.old.begun.items ++ whole.now)) }
    {
        if self.begun.is_empty() {
            return Ok(whole);
        }
        let Some(feed) = memchr(b'\n', whole) else {
            unreachable!("whole lines have a line feed");
        };
        let (last, behind) = whole.split_at(feed + 1);
        self.begun.extend_from_slice(last)?;
        read_lines(
            &mut self.lines,
            &mut self.store,
            &mut self.known,
            &self.begun,
        )?;
        self.begun.clear();
        Ok(behind)
    }

    /// Reads the bytes of the next piece.
    fn take(&mut self, piece: &[u8]) -> Result<(), ScriptError>
        requires { AreReadLines self.old }
        ensures taken { OnOk result (ReadsPiece self.old piece.now self.new) }
        ensures bad { IfErr result (IsFirstBadLine (line_calls self.old.lines.items (stored self.old.store))
            (self.old.begun.items ++ piece.now)) }
    {
        let Some(feed) = memrchr(b'\n', piece) else {
            self.begun.extend_from_slice(piece)?;
            return Ok(());
        };
        let (whole, begun) = piece.split_at(feed + 1);
        let behind = self.end_line(whole)?;
        read_lines(&mut self.lines, &mut self.store, &mut self.known, behind)?;
        self.begun.extend_from_slice(begun)?;
        Ok(())
    }

    /// Reads the next piece, which may have no byte, and names the first bad line that it ends.
    fn take_piece(&mut self, piece: &[u8]) -> Result<(), ScriptError>
        requires { AreReadLines self.old }
        ensures taken { OnOk result (ReadsPiece self.old piece.now self.new) }
        ensures bad { IfErr result (IsFirstBadLine (line_calls self.old.lines.items (stored self.old.store))
            (self.old.begun.items ++ piece.now)) }
        ensures names { IfErr result (NamesBadLine (line_calls self.old.lines.items (stored self.old.store))
            (self.old.begun.items ++ piece.now)) }
        ensures ok { piece.now ≡ [] → IsOk result }
        ensures nothing { piece.now ≡ [] → self.new ≡ self.old }
    {
        if piece.is_empty() {
            return Ok(());
        }
        self.take(piece)
    }
}

/// Reads a script that comes piece by piece, as [`Script::read`] reads one whole.
///
/// It is seen as what it will answer: `answer_with` of `specs/Readings.antt` says what that is if some bytes follow and
/// no more. It keeps the calls of the lines, and of the pieces the line that is begun and up to 64 short lines that it
/// read lately.
///
/// ```
/// let mut reader = ScriptReader::new(alloc);
/// reader.push(b"text_begin -\ntext_frag");
/// reader.push(b"ment =6869\ntext_end\n");
/// let script = reader.finish()?;
/// assert_eq!(rt; script.line_count(), 3);
/// ```
#[derive(Drop)]
pub struct ScriptReader {
    read: ReadLines,
    /// Why it stopped, if it did.
    stopped: Option<ScriptError>,
}

impl Model for ScriptReader {
    ghost use Rattle.std.specs.Prelude.{◌≡◌, None};
    ghost use Rattle.sval_script.specs.Readings.{ScriptReading};
    ghost use Rattle.sval_script.specs.LineCalls.{stored};
    ghost use Rattle.sval_script.specs.ReadLines.{line_calls, AreReadLines};

    ghost Value = { ScriptReading };

    ghost view = { λ reader. record {
      calls = line_calls reader.read.lines.items (stored reader.read.store);
      begun = reader.read.begun.items;
      stopped = reader.stopped;
    } };

    ghost invariant = { λ reader. reader.stopped ≡ None → AreReadLines reader.read };
}

impl ScriptReader {
    /// A reader that was given nothing, which takes no memory yet.
    pub fn new(alloc: Global) -> ScriptReader
        ensures { (more : List ℕ) → answer_with result more ≡ answer_to (lines more) }
    {
        ScriptReader {
            read: ReadLines::new(alloc),
            stopped: None,
        }
    }

    /// Takes the next piece, which may end within a line. What is wrong with the script, [`finish`](Self::finish) says.
    ///
    /// The reader stops at the first bad line, with the piece that ends it, or where memory is wanting. It then stays
    /// as it is, whatever pieces come, so no later piece changes what [`finish`](Self::finish) answers.
    pub fn push(&mut self, piece: &[u8])
        ensures takes { TakesPiece self.old piece.now self.new }
        ensures nothing { piece.now ≡ [] → self.new ≡ self.old }
        ensures stays { IsSome self.old.stopped → self.new ≡ self.old }
        ensures bad_line { StopsAtBadLine self.old piece.now self.new }
    {
        if self.stopped.is_some() {
            return;
        }
        if let Err(why) = self.read.take_piece(piece) {
            self.stopped = Some(why);
        }
    }

    /// The script that all pieces are, one after another. A reader that has stopped answers why it did.
    ///
    /// # Errors
    ///
    /// [`ScriptError::BadLine`] with the number of the first line that spells no call, or that no line feed ends.
    /// [`ScriptError::NoMemory`] where memory was wanting for a piece, or where a field spells a text or a binary of
    /// 4 GiB or more.
    pub fn finish(self) -> Result<Script, ScriptError>
        ensures answer { result ≡ answer_with self [] }
        ensures stopped { IfSome self.stopped (λ why. result ≡ Err why) }
        ensures few { IfOk result (λ script. length script < 2 ^ 64) }
    {
        if let Some(why) = self.stopped {
            return Err(why);
        }
        let ReadLines {
            lines,
            store,
            begun,
            known: _known,
        } = self.read;
        if !begun.is_empty() {
            let line = lines.len() as u64 + 1;
            return Err(ScriptError::BadLine { line });
        }
        Ok(Script { lines, store })
    }
}
