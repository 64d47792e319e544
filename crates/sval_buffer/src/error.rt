//! Why a buffer refused something.

ghost use Rattle.std.specs.Prelude.{◌≡◌};
ghost use Rattle.sval_buffer.specs.declared.error.ErrorKind.TheVariants as kinds;

use std::fmt;
use std::marker::Model;
use sval_core::NoMemory;

/// A word of an [`ErrorKind`].
#[derive(Clone, Copy, Debug, PartialEq, Eq)]
pub enum Word {
    /// `null`
    Null,
    /// `boolean`
    Boolean,
    /// `integer`
    Integer,
    /// `sequence`
    Sequence,
    /// `text`
    Text,
    /// `binary`
    Binary,
    /// `map`
    Map,
    /// `the value itself failed to stream`
    FailedToStream,
    /// `formatting failed`
    FormattingFailed,
    /// ``unbalanced calls to `begin` and `end` ``
    Unbalanced,
}

impl fmt::Display for Word {
    ghost use Rattle.std.specs.Prelude.{Some};
    ghost use Rattle.sval_buffer.specs.ErrorTexts.{word_text};

    ghost output = { λ word. Some (word_text word) };

    fn fmt<W: fmt::Write>(&self, f: &mut fmt::Formatter<W>) -> fmt::Result {
        f.write_str(match self {
            Word::Null => "null",
            Word::Boolean => "boolean",
            Word::Integer => "integer",
            Word::Sequence => "sequence",
            Word::Text => "text",
            Word::Binary => "binary",
            Word::Map => "map",
            Word::FailedToStream => "the value itself failed to stream",
            Word::FormattingFailed => "formatting failed",
            Word::Unbalanced => "unbalanced calls to `begin` and `end`",
        })
    }
}

/// The kinds of [`Error`].
#[derive(Clone, Copy, Debug, PartialEq, Eq)]
pub enum ErrorKind {
    /// A call of another kind came than the buffer collects.
    Unsupported {
        /// What came.
        actual: Word,
        /// What the buffer holds.
        expected: Word,
    },
    /// The value refused, can't be printed, or its calls are no value's.
    InvalidValue {
        /// What is wrong with it.
        reason: Word,
    },
    /// A fragment came where the last part takes none.
    OutsideContainer {
        /// Which kind of fragment.
        method: Word,
    },
    /// Memory was wanting.
    NoAlloc {
        /// What was buffered.
        method: Word,
    },
}

/// Says that the allocator refused memory for what was buffered. Without the allocator only `Parts::next_place` makes
/// this kind of error, at its limit.
pub(crate) fn no_alloc(_cause: NoMemory, method: Word) -> ErrorKind
    ensures { result ≡ kinds.NoAlloc method }
{
    ErrorKind::NoAlloc { method }
}

/// Why a buffer refused something.
#[derive(Debug, Drop)]
pub struct Error {
    kind: ErrorKind,
}

impl Model for Error {
    ghost use Rattle.sval_buffer.specs.declared.error.ErrorKind.{ErrorKind};

    ghost Value = { ErrorKind };

    ghost view = { λ error. error.kind };
}

impl Error {
    /// An error of this kind.
    pub(crate) fn new(kind: ErrorKind) -> Error
        ensures { result ≡ kind }
    {
        Error { kind }
    }

    /// What kind of error this is.
    pub fn kind(&self) -> &ErrorKind
        ensures { result.now ≡ self.now }
    {
        &self.kind
    }
}

impl fmt::Display for Error {
    ghost use Rattle.std.specs.Prelude.{Some};
    ghost use Rattle.sval_buffer.specs.ErrorTexts.{buffer_error_text};

    ghost output = { λ kind. Some (buffer_error_text kind) };

    fn fmt<W: fmt::Write>(&self, f: &mut fmt::Formatter<W>) -> fmt::Result {
        match self.kind {
            ErrorKind::Unsupported { actual, expected } => write!(
                f,
                "unexpected {actual}, expected {expected}"
            ),
            ErrorKind::InvalidValue { reason } => write!(f, "the value is invalid: {reason}"),
            ErrorKind::OutsideContainer { method } => write!(
                f,
                "expected a fragment while buffering {method}"
            ),
            ErrorKind::NoAlloc { method } => write!(f, "cannot allocate for {method}"),
        }
    }
}

impl std::error::Error for Error {}
