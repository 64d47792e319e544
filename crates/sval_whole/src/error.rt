//! Why a value wasn't written.

ghost use Rattle.std.specs.Prelude.{◌≡◌};

use std::error::Error;
use std::fmt;
use sval_check::CheckError;
use sval_json::ErrorKind;

/// Why the JSON of a value wasn't written, or not whole.
#[derive(Clone, Copy, Debug, PartialEq, Eq)]
pub enum WriteError {
    /// No value goes on with the call of this number, counted from 1. A number past the greatest `u64` is given as
    /// that.
    BadCall {
        /// The number of the call.
        at: u64,
    },
    /// All calls can be completed, and they end before they are one whole value.
    Unfinished,
    /// All calls can be completed, and the value itself refused.
    Refused,
    /// The calls are one whole value, and a key of one of its maps is a value that can't be a key.
    InvalidKey,
    /// The calls are one whole value, and a text in it that stands for a number is none.
    InvalidNumber,
    /// The sink failed.
    Write,
    /// Memory was wanting.
    NoMemory,
}

impl fmt::Display for WriteError {
    ghost use Rattle.std.specs.Prelude.{Some};
    ghost use Rattle.sval_whole.specs.ErrorTexts.{write_error_text};

    ghost output = { λ error. Some (write_error_text error) };

    fn fmt<W: fmt::Write>(&self, f: &mut fmt::Formatter<W>) -> fmt::Result {
        match *self {
            WriteError::BadCall { at } => write!(f, "no value goes on with call {at}"),
            WriteError::Unfinished => f.write_str("the calls end before the value is whole"),
            WriteError::Refused => f.write_str("the value refused"),
            WriteError::InvalidKey => f.write_str("attempt to serialize a non-string key"),
            WriteError::InvalidNumber => f.write_str("attempt to serialize an invalid number"),
            WriteError::Write => f.write_str("failed to write JSON"),
            WriteError::NoMemory => f.write_str("cannot allocate for JSON"),
        }
    }
}

impl Error for WriteError {}

impl From<CheckError> for WriteError {
    ghost use Rattle.sval_whole.specs.Whole.{of_check_error};

    ghost from_gives = { λ found error. error ≡ of_check_error found };

    fn from(found: CheckError) -> WriteError {
        match found {
            CheckError::BadCall { at } => WriteError::BadCall { at },
            CheckError::Unfinished => WriteError::Unfinished,
            CheckError::Refused => WriteError::Refused,
            CheckError::NoMemory => WriteError::NoMemory,
        }
    }
}

impl From<ErrorKind> for WriteError {
    ghost use Rattle.sval_whole.specs.Whole.{of_json_error};

    ghost from_gives = { λ found error. error ≡ of_json_error found };

    fn from(found: ErrorKind) -> WriteError {
        match found {
            ErrorKind::Generic => WriteError::Refused,
            ErrorKind::IO => WriteError::Write,
            ErrorKind::InvalidKey => WriteError::InvalidKey,
            ErrorKind::InvalidNumber => WriteError::InvalidNumber,
            ErrorKind::NoMemory => WriteError::NoMemory,
        }
    }
}
