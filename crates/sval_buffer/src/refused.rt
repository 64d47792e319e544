//! What a call that takes a value hands back where it is refused.

ghost use Rattle.std.specs.Prelude.{◌≡◌};
ghost use Rattle.sval_buffer.specs.Capture.{IsNoAlloc};

use crate::error::{Error, Word, no_alloc};
use std::fmt;
use sval_core::NoMemory;

/// A value that a call took and hands back, and why.
#[derive(Debug, Drop)]
pub struct Refused<T> {
    /// The value, as it was.
    pub value: T,
    /// Why the call was refused.
    pub error: Error,
}

impl<T: Drop> From<Refused<T>> for Error {
    ghost from_gives = { λ refused error. error ≡ refused.error };

    fn from(refused: Refused<T>) -> Error {
        refused.error
    }
}

/// Prints the error alone.
impl<T: Drop> fmt::Display for Refused<T> {
    ghost use Rattle.std.specs.Prelude.{Some};
    ghost use Rattle.sval_buffer.specs.ErrorTexts.{buffer_error_text};

    ghost output = { λ refused. Some (buffer_error_text refused.error) };

    fn fmt<W: fmt::Write>(&self, f: &mut fmt::Formatter<W>) -> fmt::Result {
        self.error.fmt(f)
    }
}

impl<T: Drop + fmt::Debug> std::error::Error for Refused<T> {}

/// Says that there was no memory for the parts of a value.
pub(crate) fn no_memory(cause: NoMemory) -> Error
    ensures { IsNoAlloc result }
{
    Error::new(no_alloc(cause, Word::Sequence))
}
