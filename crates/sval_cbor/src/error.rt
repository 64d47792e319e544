//! Why CBOR wasn't written.

use std::error::Error;
use std::fmt;
use sval_io::SinkError;

/// Why a value wasn't written as CBOR, or not whole, by [`stream_to_cbor`](crate::stream_to_cbor).
#[derive(Clone, Copy, Debug, PartialEq, Eq)]
pub enum CborError {
    /// No value goes on with the call of this number, counted from 1. A number past the greatest `u64` is given as
    /// that.
    BadCall {
        /// The number of the call.
        at: u64,
    },
    /// All calls can be completed, and they end before they are one whole value.
    Unfinished,
    /// All calls can be completed, and the value itself refused.
    Refused,
    /// A map's key is no text, and is not written as one.
    Key,
    /// A text tagged as a number is no number.
    Number,
    /// Text that stands for JSON, which has no place in CBOR.
    Raw,
    /// A text tagged as a number is one with a fraction, an exponent or more than 128 bits.
    NotInteger,
    /// The sink failed.
    Write,
    /// Memory was wanting.
    NoMemory,
}

impl fmt::Display for CborError {
    ghost use Rattle.std.specs.Prelude.{Some};
    ghost use Rattle.sval_cbor.specs.ErrorTexts.{cbor_error_text};

    ghost output = { λ error. Some (cbor_error_text error) };

    fn fmt<W: fmt::Write>(&self, f: &mut fmt::Formatter<W>) -> fmt::Result {
        match *self {
            CborError::BadCall { at } => write!(f, "no value goes on with call {at}"),
            CborError::Unfinished => f.write_str("the calls end before the value is whole"),
            CborError::Refused => f.write_str("the value refused"),
            CborError::Key => f.write_str("attempt to write a non-string key"),
            CborError::Number => f.write_str("attempt to write an invalid number"),
            CborError::Raw => f.write_str("attempt to write raw JSON as CBOR"),
            CborError::NotInteger => {
                f.write_str("attempt to write a number that is no whole number of 128 bits")
            }
            CborError::Write => f.write_str("failed to write CBOR"),
            CborError::NoMemory => f.write_str("cannot allocate for CBOR"),
        }
    }
}

impl Error for CborError {}

impl From<SinkError> for CborError {
    ghost use Rattle.std.specs.Prelude.{◌≡◌};
    ghost use Rattle.sval_cbor.specs.SinkErrors.{cbor_error_of};

    ghost from_gives = { λ why error. error ≡ cbor_error_of why };

    fn from(why: SinkError) -> CborError {
        match why {
            SinkError::Failed => CborError::Write,
            SinkError::NoMemory => CborError::NoMemory,
        }
    }
}

/// Why a step of the writer refuses a call.
#[derive(Clone, Copy)]
pub(crate) enum Refusal {
    /// A key that can't be one: a container, a binary, a text under `JSON_VALUE`, or a variant with its name.
    Key,
    /// A number that is none.
    Number,
    /// Raw JSON.
    Raw,
    /// A number that isn't whole, or has more than 128 bits.
    NotInteger,
}

/// What stopped the writer.
#[derive(Clone, Copy)]
pub(crate) enum Stop {
    /// Its own step.
    Step(Refusal),
    /// The sink.
    Sink(SinkError),
}
