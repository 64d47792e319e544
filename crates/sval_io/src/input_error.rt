//! Why an input wasn't read.

use crate::source::SourceError;
use std::alloc::AllocError;
use std::error::Error;
use std::fmt;

/// Why an input wasn't read.
#[derive(Clone, Copy, Debug, PartialEq, Eq)]
pub enum InputError {
    /// The source failed.
    ReadFault,
    /// There are more bytes than are read.
    TooLong,
    /// Memory was wanting.
    NoMemory,
}

impl fmt::Display for InputError {
    ghost use Rattle.std.specs.Prelude.{Some};
    ghost use Rattle.sval_io.specs.ErrorTexts.{input_error_text};

    ghost output = { λ error. Some (input_error_text error) };

    fn fmt<W: fmt::Write>(&self, f: &mut fmt::Formatter<W>) -> fmt::Result {
        f.write_str(match self {
            Self::ReadFault => "read fault",
            Self::TooLong => "the input is longer than 16777216 bytes",
            Self::NoMemory => "out of memory",
        })
    }
}

impl Error for InputError {}

impl From<AllocError> for InputError {
    ghost use Rattle.std.specs.Prelude.{◌≡◌};
    ghost use Rattle.sval_io.specs.declared.input_error.InputError.TheVariants.{NoMemory};

    ghost from_gives = { λ _ error. error ≡ NoMemory };

    fn from(_error: AllocError) -> InputError {
        InputError::NoMemory
    }
}

impl From<SourceError> for InputError {
    ghost use Rattle.std.specs.Prelude.{◌≡◌};
    ghost use Rattle.sval_io.specs.declared.input_error.InputError.TheVariants.{ReadFault};

    ghost from_gives = { λ _ error. error ≡ ReadFault };

    fn from(_error: SourceError) -> InputError {
        InputError::ReadFault
    }
}
