//! Scripts of calls.

ghost use Rattle.std.specs.Prelude.{◌≡◌, ◌⊎◌, ◌↔◌, ℕ, ◌<◌, ◌≤◌, ◌^◌, IfOk, IfSome, IsSome, length};
ghost use Rattle.sval_core.specs.Many.{slice};
ghost use Rattle.sval_core.specs.Values.{makes};
ghost use Rattle.sval_script.specs.Lines.{Good, Bad};
ghost use Rattle.sval_script.specs.Lines as spec;
ghost use Rattle.sval_script.specs.Readings.{answer_to};
ghost use Rattle.sval_script.specs.declared.script.ScriptError.TheVariants as error;

use crate::line::Line;
use crate::reader::ScriptReader;
use crate::slice::{ScriptSlice, make_lines};
use crate::store::Store;
use std::alloc::{AllocError, AllocFailed, Global};
use std::error::Error;
use std::fmt;
use std::marker::Model;
use sval_core::{Lent, Stream, Value};

/// Why a script wasn't read.
#[derive(Clone, Copy, Debug, PartialEq, Eq)]
pub enum ScriptError {
    /// This line, counted from 1, is the first that spells no call.
    BadLine { line: u64 },
    /// There was no memory for the script, or one of its texts or binaries has 4 GiB or more.
    NoMemory,
}

impl fmt::Display for ScriptError {
    ghost use Rattle.std.specs.Prelude.{Some};
    ghost use Rattle.sval_script.specs.ErrorTexts.{script_error_text};

    ghost output = { λ error. Some (script_error_text error) };

    fn fmt<W: fmt::Write>(&self, f: &mut fmt::Formatter<W>) -> fmt::Result {
        match *self {
            ScriptError::BadLine { line } => write!(f, "line {line}: not a call"),
            ScriptError::NoMemory => f.write_str("cannot allocate for a script"),
        }
    }
}

impl Error for ScriptError {}

impl<T: Drop> From<AllocFailed<T>> for ScriptError {
    ghost from_gives = { λ _ r. r ≡ error.NoMemory };

    fn from(_e: AllocFailed<T>) -> ScriptError {
        ScriptError::NoMemory
    }
}

impl From<AllocError> for ScriptError {
    ghost from_gives = { λ _ r. r ≡ error.NoMemory };

    fn from(_e: AllocError) -> ScriptError {
        ScriptError::NoMemory
    }
}

/// A script that was read: the calls of its lines, in order.
///
/// It is a value, which makes these calls, lends its texts and bytes and never refuses. What doesn't fit a line of 8
/// bytes is kept beside the lines, decoded, in the order of the lines.
#[derive(Drop)]
pub struct Script {
    pub(crate) lines: Vec<Line>,
    pub(crate) store: Store,
}

impl Model for Script {
    ghost use Rattle.std.specs.Prelude.{List};
    ghost use Rattle.sval_label.specs.Calls.{Call};
    ghost use Rattle.sval_script.specs.LineCalls.{calls_with, HoldsLines};

    ghost Value = { List Call };

    ghost view = { λ script.
        calls_with script.store.bytes.items script.store.numbers.items script.lines.items };

    ghost invariant = { λ script.
        HoldsLines script.store.bytes.items script.store.numbers.items script.lines.items };
}

impl Script {
    /// Reads a script whole: the calls of its lines. Each line ends with a line feed.
    ///
    /// ```
    /// let script = Script::read(alloc, b"text_begin -\ntext_fragment =6869\ntext_end\n")?;
    /// assert_eq!(rt; script.line_count(), 3);
    /// ```
    ///
    /// # Errors
    ///
    /// [`ScriptError::BadLine`] with the number of the first line that spells no call, or that no line feed ends.
    /// [`ScriptError::NoMemory`] where there was no memory for the lines or their texts, or where a field spells a text
    /// or a binary of 4 GiB or more, and never for an empty script. Each answer comes wherever it is due, unless that
    /// is so.
    pub fn read(alloc: Global, bytes: &[u8]) -> Result<Script, ScriptError>
        ensures ok { IfOk result (λ script. spec.lines bytes.now ≡ Good script) }
        ensures few { IfOk result (λ script. length script < 2 ^ 64) }
        ensures bad_line { (n : ℕ) → result ≡ Err (ScriptError.BadLine n) → spec.lines bytes.now ≡ Bad n }
        ensures no_memory { result ≡ Err ScriptError.NoMemory → 0 < length bytes.now }
        ensures comes { (result ≡ answer_to (spec.lines bytes.now)) ⊎ (result ≡ Err ScriptError.NoMemory) }
    {
        let mut reader = ScriptReader::new(alloc);
        reader.push(bytes);
        reader.finish()
    }

    /// The number of its lines.
    pub fn line_count(&self) -> u64
        ensures { result ≡ length self.now }
    {
        self.lines.len() as u64
    }

    /// All its lines.
    pub fn as_slice(&self) -> ScriptSlice<'_>
        ensures { result ≡ self.now }
    {
        ScriptSlice {
            lines: self.lines.as_slice(),
            bytes: self.store.bytes.as_slice(),
            numbers: self.store.numbers.as_slice(),
        }
    }

    /// The lines after the first `from` up to the line with the number `to`, where the script has them.
    ///
    /// It looks at each line up to there. Whoever wants one slice after another cuts
    /// [`as_slice`](Script::as_slice) by [`split_at_checked`](ScriptSlice::split_at_checked).
    ///
    /// ```
    /// let script = Script::read(alloc, b"null\nbool true\nnull\n")?;
    /// let slice = script.slice(1, 2);
    /// ```
    pub fn slice(&self, from: u64, to: u64) -> Option<ScriptSlice<'_>>
        ensures calls { IfSome result (λ lines. lines ≡ slice from to self.now) }
        ensures comes { IsSome result ↔ ((from ≤ to) × (to ≤ length self.now)) }
    {
        let count = to.checked_sub(from)?;
        let (_, behind) = self.as_slice().split_at_checked(from)?;
        let (lines, _) = behind.split_at_checked(count)?;
        Some(lines)
    }
}

impl<'v> Value<'v, Lent<'v>> for Script {
    ghost emission = { makes };

    fn stream<S: Stream<Lent<'v>>>(&'v self, stream: &mut S) -> sval_core::Result {
        let store = &self.store;
        make_lines(
            self.lines.as_slice(),
            store.bytes.as_slice(),
            store.numbers.as_slice(),
            stream,
        )
    }
}
