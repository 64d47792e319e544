//! Why a document wasn't converted.

use std::error::Error;
use std::fmt;
use sval_core::NoMemory;
use sval_io::SinkError;
use sval_json_read::ReadError;

/// Why a document wasn't converted.
#[derive(Clone, Copy, Debug, PartialEq, Eq)]
pub enum DocumentError {
    /// Its bytes are not UTF-8. `at` is the length of their longest front that is UTF-8.
    NotUtf8 { at: u64 },
    /// Its bytes denote no value. `at` is the offset of the first byte with which no valid JSON text could go on, or
    /// the length where the text ends too early.
    BadJson { at: u64 },
    /// A number that is left doesn't pack: it has a fraction or an exponent, or isn't from -2^127 to 2^128-1.
    NotInteger,
    /// The sink failed.
    WriteFault,
    /// Memory was wanting.
    NoMemory,
}

impl fmt::Display for DocumentError {
    ghost use Rattle.std.specs.Prelude.{Some};
    ghost use Rattle.sval_tool.specs.ErrorTexts.{document_error_text};

    ghost output = { λ error. Some (document_error_text error) };

    fn fmt<W: fmt::Write>(&self, f: &mut fmt::Formatter<W>) -> fmt::Result {
        match *self {
            DocumentError::NotUtf8 { at } => write!(f, "invalid UTF-8 at byte {at}"),
            DocumentError::BadJson { at } => write!(f, "invalid JSON at byte {at}"),
            DocumentError::NotInteger => {
                f.write_str("attempt to write a number that is no whole number of 128 bits")
            }
            DocumentError::WriteFault => f.write_str("write fault"),
            DocumentError::NoMemory => f.write_str("out of memory"),
        }
    }
}

impl Error for DocumentError {}

impl From<NoMemory> for DocumentError {
    ghost use Rattle.std.specs.Prelude.{◌≡◌};
    ghost use Rattle.sval_tool.specs.declared.error.DocumentError.TheVariants.{NoMemory};

    ghost from_gives = { λ _ error. error ≡ NoMemory };

    fn from(_cause: NoMemory) -> DocumentError {
        DocumentError::NoMemory
    }
}

impl From<ReadError> for DocumentError {
    ghost use Rattle.std.specs.Prelude.{◌≡◌};
    ghost use Rattle.sval_tool.specs.Conversions.{error_of_read};

    ghost from_gives = { λ why error. error ≡ error_of_read why };

    fn from(why: ReadError) -> DocumentError {
        match why {
            ReadError::NotUtf8 { at } => DocumentError::NotUtf8 { at },
            ReadError::BadJson { at } => DocumentError::BadJson { at },
            ReadError::NoMemory => DocumentError::NoMemory,
        }
    }
}

impl From<SinkError> for DocumentError {
    ghost use Rattle.std.specs.Prelude.{◌≡◌};
    ghost use Rattle.sval_tool.specs.Conversions.{error_of_sink};

    ghost from_gives = { λ why error. error ≡ error_of_sink why };

    fn from(why: SinkError) -> DocumentError {
        match why {
            SinkError::Failed => DocumentError::WriteFault,
            SinkError::NoMemory => DocumentError::NoMemory,
        }
    }
}
