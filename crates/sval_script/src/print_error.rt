//! Why calls weren't printed.

ghost use Rattle.std.specs.Prelude.{◌≡◌};
ghost use Rattle.sval_script.specs.Printing.{print_error_of};

use std::error::Error;
use std::fmt;
use sval_io::SinkError;

/// Why calls weren't printed, or not whole.
#[derive(Clone, Copy, Debug, PartialEq, Eq)]
pub enum PrintError {
    /// The sink failed.
    Write,
    /// A tag is none of the ten names that scripts have.
    UnknownTag,
    /// The value itself refused.
    Refused,
    /// The sink had no memory.
    NoMemory,
}

impl From<SinkError> for PrintError {
    ghost from_gives = { λ error why. why ≡ print_error_of error };

    fn from(error: SinkError) -> PrintError {
        match error {
            SinkError::Failed => PrintError::Write,
            SinkError::NoMemory => PrintError::NoMemory,
        }
    }
}

impl fmt::Display for PrintError {
    ghost use Rattle.std.specs.Prelude.{Some};
    ghost use Rattle.sval_script.specs.Printing.{print_error_text};

    ghost output = { λ error. Some (print_error_text error) };

    fn fmt<W: fmt::Write>(&self, f: &mut fmt::Formatter<W>) -> fmt::Result {
        f.write_str(match self {
            PrintError::Write => "failed to write a script",
            PrintError::UnknownTag => "a tag has no name in scripts",
            PrintError::Refused => "a value refused to be printed",
            PrintError::NoMemory => "cannot allocate for a script",
        })
    }
}

impl Error for PrintError {}
