//! Why a value was not accepted.

use std::error::Error;
use std::fmt;

/// Why a value's calls were not accepted as one whole value by [`check`](crate::check), or as a list of them by
/// [`check_all`](crate::check_all).
#[derive(Clone, Copy, Debug, PartialEq, Eq)]
pub enum CheckError {
    /// No value, or list of values, goes on with the call of this number, counted from 1. A number past the greatest
    /// `u64` is given as that.
    BadCall {
        /// The number of the call.
        at: u64,
    },
    /// All calls can be completed, and the value itself refused.
    Refused,
    /// All calls can be completed, and they are not one whole value, or not a list of whole values.
    Unfinished,
    /// Memory was wanting.
    NoMemory,
}

impl fmt::Display for CheckError {
    ghost use Rattle.std.specs.Prelude.{Some};
    ghost use Rattle.sval_check.specs.ErrorTexts.{check_error_text};

    ghost output = { λ error. Some (check_error_text error) };

    fn fmt<W: fmt::Write>(&self, f: &mut fmt::Formatter<W>) -> fmt::Result {
        match *self {
            CheckError::BadCall { at } => write!(f, "no value goes on with call {at}"),
            CheckError::Refused => f.write_str("the value refused"),
            CheckError::Unfinished => f.write_str("the calls are unfinished"),
            CheckError::NoMemory => f.write_str("cannot allocate for a check"),
        }
    }
}

impl Error for CheckError {}
