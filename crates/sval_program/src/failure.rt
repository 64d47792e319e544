//! Why a program failed.

ghost use Rattle.std.specs.Prelude.{◌≡◌, Some};
ghost use Rattle.sval_program.specs.Failures.{status_of_fault, row_of_fault, failure_of_check};
ghost use Rattle.sval_program.specs.Failures.{status_of_failure, line_of_failure};

use crate::line::Line;
use crate::{lines, status};
use std::error::Error;
use std::fmt;
use sval_check::CheckError;
use sval_io::{InputError, SinkError};
use sval_script::ScriptError;

/// Why nothing more is due of an input.
#[derive(Clone, Copy, Debug)]
pub enum Fault {
    /// This line of a script, counted from 1, is the first that is no call.
    BadLine {
        /// The line's number.
        line: u64,
    },
    /// No value, or no list of values, goes on with the call of this line of a script, counted from 1.
    BadCall {
        /// The line's number.
        line: u64,
    },
    /// The calls are not one whole value, or not whole values where many may come.
    Unfinished {
        /// Whether many values may come.
        many: bool,
    },
    /// A map's key can't be written as a key.
    InvalidKey,
    /// A text tagged as a number is no number.
    InvalidNumber,
    /// The input is not UTF-8.
    NotUtf8,
    /// The input denotes no value of JSON.
    BadJson {
        /// The byte at which it fails.
        at: u64,
    },
    /// The value has text that says it is JSON, which CBOR can't take.
    Raw,
    /// A text tagged as a number is one that CBOR can't take as a whole number.
    NotInteger,
    /// The input is not one item of CBOR, in the profile that is read.
    BadCbor,
}

impl Fault {
    /// The program's status.
    pub fn status(self) -> u8
        ensures { result ≡ status_of_fault self }
    {
        match self {
            Fault::BadLine { .. } => status::BAD_LINE,
            Fault::BadCall { .. } => status::BAD_CALL,
            Fault::Unfinished { .. } => status::UNFINISHED,
            Fault::InvalidKey => status::INVALID_KEY,
            Fault::InvalidNumber => status::INVALID_NUMBER,
            Fault::NotUtf8 => status::NOT_UTF8,
            Fault::BadJson { .. } => status::BAD_JSON,
            Fault::Raw => status::RAW,
            Fault::NotInteger => status::NOT_INTEGER,
            Fault::BadCbor => status::BAD_CBOR,
        }
    }

    /// The line that the third device is told.
    pub fn line(self) -> Line
        ensures { result ≡ (row_of_fault self).1 }
    {
        match self {
            Fault::BadLine { line } => lines::bad_line(line),
            Fault::BadCall { line } => lines::bad_call(line),
            Fault::Unfinished { many } => lines::unfinished(many),
            Fault::InvalidKey => lines::invalid_key(),
            Fault::InvalidNumber => lines::invalid_number(),
            Fault::NotUtf8 => lines::not_utf8(),
            Fault::BadJson { at } => lines::bad_json(at),
            Fault::Raw => lines::raw(),
            Fault::NotInteger => lines::not_integer(),
            Fault::BadCbor => lines::bad_cbor(),
        }
    }
}

/// Prints the line of the fault, without its line feed.
impl fmt::Display for Fault {
    ghost use Rattle.sval_program.specs.Reports.{line_text};

    ghost output = { λ fault. Some (line_text (row_of_fault fault).1) };

    fn fmt<W: fmt::Write>(&self, f: &mut fmt::Formatter<W>) -> fmt::Result {
        write!(f, "{}", self.line())
    }
}

impl Error for Fault {}

/// Why a program failed: each failure has a status and a line.
///
/// It prints its line without the line feed. Words that are no form have a line of the program's own, and print that of
/// [`lines::no_form`].
#[derive(Clone, Copy, Debug)]
pub enum Failure {
    /// The words are no form.
    Usage,
    /// The input wasn't read.
    Input(InputError),
    /// Nothing more is due of the input.
    Fault(Fault),
    /// Memory was wanting before anything was written.
    NoMemory,
    /// The sink failed, or memory was wanting to write.
    Write(SinkError),
}

impl From<InputError> for Failure {
    ghost use Rattle.sval_program.specs.declared.failure.Failure.TheVariants.{Input};

    ghost from_gives = { λ error failure. failure ≡ Input error };

    fn from(error: InputError) -> Failure {
        Failure::Input(error)
    }
}

impl From<ScriptError> for Failure {
    ghost use Rattle.sval_program.specs.Failures.{failure_of_script};

    ghost from_gives = { λ error failure. failure ≡ failure_of_script error };

    fn from(error: ScriptError) -> Failure {
        match error {
            ScriptError::BadLine { line } => Failure::Fault(Fault::BadLine { line }),
            ScriptError::NoMemory => Failure::NoMemory,
        }
    }
}

impl From<SinkError> for Failure {
    ghost use Rattle.sval_program.specs.declared.failure.Failure.TheVariants.{Write};

    ghost from_gives = { λ error failure. failure ≡ Write error };

    fn from(error: SinkError) -> Failure {
        Failure::Write(error)
    }
}

impl Failure {
    /// What checking calls found, where many values may come or not. Calls of a script never refuse.
    pub fn of_check(error: CheckError, many: bool) -> Failure
        requires { error ≡ CheckError.Refused → ⊥ }
        ensures { failure_of_check many error ≡ Some result }
    {
        match error {
            CheckError::BadCall { at } => Failure::Fault(Fault::BadCall { line: at }),
            CheckError::Unfinished => Failure::Fault(Fault::Unfinished { many }),
            CheckError::NoMemory => Failure::NoMemory,
            CheckError::Refused => unreachable!("a script doesn't refuse"),
        }
    }

    /// The program's status.
    pub fn status(self) -> u8
        ensures { result ≡ status_of_failure self }
    {
        match self {
            Failure::Usage => status::USAGE,
            Failure::Input(error) => status::of_input(error),
            Failure::Fault(fault) => fault.status(),
            Failure::NoMemory => status::NO_MEMORY,
            Failure::Write(SinkError::Failed) => status::WRITE,
            Failure::Write(SinkError::NoMemory) => status::NO_MEMORY,
        }
    }

    /// The line that the third device is told, where `usage` is the program's line for words that are no form.
    pub fn line(self, usage: Line) -> Line
        ensures { result ≡ line_of_failure usage self }
    {
        match self {
            Failure::Usage => usage,
            Failure::Input(error) => lines::of_input(error),
            Failure::Fault(fault) => fault.line(),
            Failure::NoMemory => lines::out_of_memory(),
            Failure::Write(SinkError::Failed) => lines::write_fault(),
            Failure::Write(SinkError::NoMemory) => lines::out_of_memory(),
        }
    }
}

impl fmt::Display for Failure {
    ghost use Rattle.sval_program.specs.Reports.{line_text, no_form_line};

    ghost output = { λ failure. Some (line_text (line_of_failure no_form_line failure)) };

    fn fmt<W: fmt::Write>(&self, f: &mut fmt::Formatter<W>) -> fmt::Result {
        write!(f, "{}", self.line(lines::no_form()))
    }
}

impl Error for Failure {}
