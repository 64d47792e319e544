//! Why JSON wasn't written.

ghost use Rattle.std.specs.Prelude.{◌≡◌};
ghost use Rattle.sval_json.specs.ErrorKinds.{error_kind, without_io};

use std::fmt;
use std::marker::Model;
use sval_io::SinkError;

/// The kinds of [`Error`].
#[derive(Clone, Copy, Debug, PartialEq, Eq)]
pub enum ErrorKind {
    /// The value itself refused; of `stream_to_fmt_write` also: the sink failed.
    Generic,
    /// The sink failed.
    IO,
    /// A map's key can't be the name of a JSON member.
    InvalidKey,
    /// A text tagged as a number is no number.
    InvalidNumber,
    /// The sink had no memory.
    NoMemory,
}

/// Why a step of the writer refuses a call.
#[derive(Clone, Copy)]
pub(crate) enum Refusal {
    /// A key that can't be one: a container, a binary, a text under `JSON_VALUE`, or a variant with its name.
    InvalidKey,
    /// A number that is none.
    InvalidNumber,
}

/// What stopped the writer.
#[derive(Clone, Copy)]
pub(crate) enum Stop {
    /// Its own step.
    Step(Refusal),
    /// The sink.
    Sink(SinkError),
}

/// Why JSON wasn't written, or not whole.
#[derive(Debug, Drop)]
pub struct Error {
    kind: ErrorKind,
}

impl Model for Error {
    ghost use Rattle.sval_json.specs.declared.error.ErrorKind.{ErrorKind};

    ghost Value = { ErrorKind };

    ghost view = { λ error. error.kind };
}

impl Error {
    /// What stopped a value: the writer, or else the value itself.
    pub(crate) fn of(why: Option<Stop>) -> Error
        ensures { result ≡ error_kind why }
    {
        let kind = match why {
            None => ErrorKind::Generic,
            Some(Stop::Step(Refusal::InvalidKey)) => ErrorKind::InvalidKey,
            Some(Stop::Step(Refusal::InvalidNumber)) => ErrorKind::InvalidNumber,
            Some(Stop::Sink(SinkError::Failed)) => ErrorKind::IO,
            Some(Stop::Sink(SinkError::NoMemory)) => ErrorKind::NoMemory,
        };
        Error { kind }
    }

    /// This error, with [`ErrorKind::Generic`] in place of [`ErrorKind::IO`].
    pub(crate) fn without_io(self) -> Error
        ensures { result ≡ without_io self }
    {
        let kind = match self.kind {
            ErrorKind::IO => ErrorKind::Generic,
            kind => kind,
        };
        Error { kind }
    }

    /// What kind of error this is.
    pub fn kind(&self) -> ErrorKind
        ensures { result ≡ self.now }
    {
        self.kind
    }
}

impl fmt::Display for Error {
    ghost use Rattle.std.specs.Prelude.{Some};
    ghost use Rattle.sval_json.specs.ErrorKinds.{json_error_text};

    ghost output = { λ kind. Some (json_error_text kind) };

    fn fmt<W: fmt::Write>(&self, f: &mut fmt::Formatter<W>) -> fmt::Result {
        f.write_str(match self.kind {
            ErrorKind::Generic => "an error occurred serializing a value to JSON",
            ErrorKind::IO => "failed to write JSON",
            ErrorKind::InvalidKey => "attempt to serialize a non-string key",
            ErrorKind::InvalidNumber => "attempt to serialize an invalid number",
            ErrorKind::NoMemory => "cannot allocate for JSON",
        })
    }
}

impl std::error::Error for Error {}
