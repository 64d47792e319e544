//! Why a line wasn't read.

use std::alloc::AllocError;
use std::error::Error;
use std::fmt;
use sval_io::SourceError;

/// Why a line wasn't read.
#[derive(Clone, Copy, Debug, PartialEq, Eq)]
pub enum LineError {
    /// The source failed.
    ReadFault,
    /// There are more than 18,446,744,073,709,551,615 lines.
    TooManyLines,
    /// There was no memory for the line.
    NoMemory,
}

impl fmt::Display for LineError {
    ghost use Rattle.std.specs.Prelude.{Some};
    ghost use Rattle.sval_lines.specs.ErrorTexts.{line_error_text};

    ghost output = { λ error. Some (line_error_text error) };

    fn fmt<W: fmt::Write>(&self, f: &mut fmt::Formatter<W>) -> fmt::Result {
        f.write_str(match self {
            Self::ReadFault => "read fault",
            Self::TooManyLines => "too many lines",
            Self::NoMemory => "out of memory",
        })
    }
}

impl Error for LineError {}

impl From<AllocError> for LineError {
    ghost use Rattle.std.specs.Prelude.{◌≡◌};
    ghost use Rattle.sval_lines.specs.declared.error.LineError.TheVariants.{NoMemory};

    ghost from_gives = { λ _ error. error ≡ NoMemory };

    fn from(_error: AllocError) -> LineError {
        LineError::NoMemory
    }
}

impl From<SourceError> for LineError {
    ghost use Rattle.std.specs.Prelude.{◌≡◌};
    ghost use Rattle.sval_lines.specs.declared.error.LineError.TheVariants.{ReadFault};

    ghost from_gives = { λ _ error. error ≡ ReadFault };

    fn from(_error: SourceError) -> LineError {
        LineError::ReadFault
    }
}
