//! Why nothing is due of an input.

ghost use Rattle.std.specs.Prelude.{◌≡◌};
ghost use Rattle.sval_c.specs.Reports.{report_status, fault_place};

use crate::status::{BAD_CHOICE, BAD_PATH, BAD_TAPE};
use sval_program::status;

/// Why nothing is due of an input.
#[derive(Clone, Copy)]
pub(crate) enum Fault {
    /// This line of a script, counted from 1, is the first that is no call.
    BadLine { line: u64 },
    /// No value goes on with the call of this number, counted from 1: a line of a script, or a call of a tape.
    BadCall { number: u64 },
    /// The calls of a script or a tape are not one whole value.
    Unfinished,
    /// A map's key can't be a key of JSON.
    InvalidKey,
    /// A text tagged as a number is no number.
    InvalidNumber,
    /// The input is not UTF-8. `at` is the length of its longest front that is UTF-8.
    NotUtf8 { at: u64 },
    /// The input is not JSON. `at` is the offset of the first byte that no JSON text could have there.
    BadJson { at: u64 },
    /// The value has text that says it is JSON, which CBOR can't hold.
    Raw,
    /// A number has a fraction, an exponent or more than 128 bits, which CBOR can't hold here.
    NotInteger,
    /// The input is not one item of CBOR, in the profile that is read.
    BadCbor,
    /// The input is no tape. `at` is the offset of the first byte at which no call begins.
    BadTape { at: u64 },
    /// The number of a style or a rule names none.
    BadChoice,
    /// This line of the paths, counted from 1, is the first that is no path; 0 where the paths are not UTF-8.
    BadPath { line: u64 },
}

impl Fault {
    /// The status of a report.
    pub(crate) fn status(self) -> u8
        ensures { result ≡ report_status self }
    {
        match self {
            Fault::BadLine { .. } => status::BAD_LINE,
            Fault::BadCall { .. } => status::BAD_CALL,
            Fault::Unfinished => status::UNFINISHED,
            Fault::InvalidKey => status::INVALID_KEY,
            Fault::InvalidNumber => status::INVALID_NUMBER,
            Fault::NotUtf8 { .. } => status::NOT_UTF8,
            Fault::BadJson { .. } => status::BAD_JSON,
            Fault::Raw => status::RAW,
            Fault::NotInteger => status::NOT_INTEGER,
            Fault::BadCbor => status::BAD_CBOR,
            Fault::BadTape { .. } => BAD_TAPE,
            Fault::BadChoice => BAD_CHOICE,
            Fault::BadPath { .. } => BAD_PATH,
        }
    }

    /// The place of a report: an offset, the number of a line or a call, or 0 where the fault has none.
    pub(crate) fn place(self) -> u64
        ensures { result ≡ fault_place self }
    {
        match self {
            Fault::BadLine { line } | Fault::BadPath { line } => line,
            Fault::BadCall { number } => number,
            Fault::NotUtf8 { at } | Fault::BadJson { at } | Fault::BadTape { at } => at,
            _ => 0,
        }
    }
}
