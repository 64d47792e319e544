//! The refusal that answers a call.

ghost use Rattle.std.specs.Prelude.{◌≡◌};

use std::alloc::{AllocError, AllocFailed};
use std::fmt;

/// A refusal, which says nothing of its cause.
///
/// A stream that knows more keeps the cause itself, as the checker and the JSON writer do.
#[derive(Clone, Copy, Debug, PartialEq, Eq)]
pub struct Error;

impl Error {
    /// The one refusal that there is.
    pub fn new() -> Error
        ensures { result ≡ record {} }
    {
        Error
    }
}

impl fmt::Display for Error {
    ghost use Rattle.std.specs.Prelude.{Some, codes};

    ghost output = { λ _. Some (codes "failed to stream data") };

    fn fmt<W: fmt::Write>(&self, f: &mut fmt::Formatter<W>) -> fmt::Result {
        f.write_str("failed to stream data")
    }
}

impl std::error::Error for Error {}

/// What a call answers: nothing, or a refusal.
pub type Result<T = (), E = Error> = std::result::Result<T, E>;

/// Answers a refusal, as in `return refusal();`.
///
/// The Rust crate calls this `error`, which here would differ from the type in case alone.
pub fn refusal<T>() -> Result<T>
    ensures { result ≡ Err (record {}) }
{
    Err(Error::new())
}

/// Memory was wanting, in a call that can fail in no other way.
///
/// Its field is private, so it is made only [`From`] an [`AllocError`] or an [`AllocFailed`]. Those are std's answers,
/// but for the few functions that write one themselves, which `checks/memory` lists.
#[derive(Clone, Copy, Debug, PartialEq, Eq)]
pub struct NoMemory {
    cause: AllocError,
}

impl From<AllocError> for NoMemory {
    fn from(cause: AllocError) -> NoMemory {
        NoMemory { cause }
    }
}

impl<T: Drop> From<AllocFailed<T>> for NoMemory {
    fn from(failed: AllocFailed<T>) -> NoMemory {
        NoMemory {
            cause: AllocError::from(failed),
        }
    }
}

impl fmt::Display for NoMemory {
    ghost use Rattle.std.specs.Prelude.{Some, codes};

    ghost output = { λ _. Some (codes "out of memory") };

    fn fmt<W: fmt::Write>(&self, f: &mut fmt::Formatter<W>) -> fmt::Result {
        f.write_str("out of memory")
    }
}

impl std::error::Error for NoMemory {}
