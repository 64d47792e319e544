//! Values as lines of logfmt. It shows how a user of these crates writes a format of their own.
//!
//! - [`to_logfmt`] gives the line of a struct or a record of leaves. What a line is, over trees, is in
//!   `specs/Pairs.antt`.
//! - The writer is a stream. Call by call it does the steps of `specs/Steps.antt`, which is its law
//!   (`specs/Writing.antt`).
//!
//! # What the proofs take
//!
//! 1. Each method of the writer is one step, and the stream's `take` is a match over groups of calls.
//! 2. That a run of the law is a run of the steps is an induction over calls (`proofs/Runs.antt`).
//! 3. That the steps of calls that spell a tree write the line of the tree is one over its parts
//!    (`proofs/Spelled.antt`): a part that is no leaf is refused at its first call, so nothing recurses into it.
#![tactic(auto)]

ghost use Rattle.std.specs.Prelude.{◌≡◌, Err, string_bytes};
ghost use Rattle.sval_core.specs.Trees.{Tree};
ghost use Rattle.sval_core.specs.ValueTrees.{Tells};
ghost use Rattle.logfmt.specs.declared.LogfmtError.TheVariants as error;
ghost use Rattle.logfmt.specs.Pairs.{record_line};
ghost use Rattle.logfmt.specs.Writing.{GivesText, StepsWriteText, nothing_written, written_line};

mod writer;

use std::alloc::Global;
use std::error::Error;
use std::fmt;
use sval_core::{Lent, Value};
use writer::LogfmtWriter;
pub use writer::is_key;

/// Why a value was not written as a line of pairs.
#[derive(Clone, Copy, Debug, PartialEq, Eq)]
pub enum LogfmtError {
    /// The value is something else than a struct or a record whose values are leaves.
    NotFlat,
    /// A key is empty, or holds a space, a control character below the space, a quote or a `=`.
    InvalidKey,
    /// The value itself refused.
    Refused,
    /// The value's calls ended within a record, or before one.
    Unfinished,
    /// Memory was wanting.
    NoMemory,
}

impl fmt::Display for LogfmtError {
    ghost use Rattle.std.specs.Prelude.{Some};
    ghost use Rattle.logfmt.specs.ErrorTexts.{logfmt_error_text};

    ghost output = { λ error. Some (logfmt_error_text error) };

    fn fmt<W: fmt::Write>(&self, f: &mut fmt::Formatter<W>) -> fmt::Result {
        f.write_str(match self {
            LogfmtError::NotFlat => "the value is not a record of leaves",
            LogfmtError::InvalidKey => "a key cannot stand in a line",
            LogfmtError::Refused => "the value refused",
            LogfmtError::Unfinished => "the calls are not one whole record",
            LogfmtError::NoMemory => "cannot allocate for a line",
        })
    }
}

impl Error for LogfmtError {}

/// The line of a value: `key=value` for each field of a struct or a record, with one space between each two.
///
/// A number, a truth value and null are written plainly. A text is written between quotes, and escaped as in JSON.
/// There is no line feed at the end. Where the value's calls spell a tree, the answer is what `line_of` says of the
/// tree, unless memory is wanting. Other calls are taken as far as a line goes on with them: sizes aren't looked at,
/// nor whether an end belongs to its begin.
///
/// ```
/// let line = to_logfmt(alloc, &value)?;
/// assert_eq!(rt; line.as_str(), "level=\"info\" status=200 ok=true");
/// ```
///
/// # Errors
///
/// [`LogfmtError::NotFlat`] comes where the value is neither, or where one of its values is no number, truth value,
/// null or text. [`LogfmtError::InvalidKey`] comes where a key can't be written in a line. The first that is found
/// comes. [`LogfmtError::Refused`] comes where the value itself refuses, and [`LogfmtError::Unfinished`] where its
/// calls end too early; neither comes where they spell a tree. [`LogfmtError::NoMemory`] may come in place of any
/// answer, but only where some first calls of the value write text. It would also stand for bytes that aren't UTF-8,
/// which texts and labels never give.
pub fn to_logfmt<'v, V: Value<'v, Lent<'v>>>(
    alloc: Global,
    value: &'v V,
) -> Result<String, LogfmtError>
    ensures tree { (tree : Tree) → Tells (V.emission value.now) tree → GivesText string_bytes result
        (record_line tree) }
    ensures calls { GivesText string_bytes result (written_line (V.emission value.now)) }
    ensures memory { result ≡ Err error.NoMemory → StepsWriteText (V.emission value.now).calls nothing_written.begun }
{
    let mut writer = LogfmtWriter::new(alloc);
    match value.stream(&mut writer) {
        Ok(()) => writer.into_line(),
        Err(_) => Err(writer.cause()),
    }
}
