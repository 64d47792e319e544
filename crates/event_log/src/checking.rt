//! Whether a value may be an event.

ghost use Rattle.std.specs.Prelude.{◌≡◌, OnOk, IfErr};
ghost use Rattle.event_log.specs.Events.{unfit, HasJson, IsRecordCause};

use std::alloc::Global;
use std::error::Error;
use std::fmt;
use sval_check::{CheckError, check};
use sval_core::{Lent, Value};
use sval_io::CountSink;
use sval_json::stream_to_io_write;

/// Why an event wasn't recorded.
#[derive(Clone, Copy, Debug, PartialEq, Eq)]
pub enum RecordError {
    /// The event refuses, or its calls are not one whole value.
    NotOneValue,
    /// The event is one whole value that has no JSON: a key or a number in it can't be one.
    NoJson,
    /// Memory was wanting.
    NoMemory,
}

impl fmt::Display for RecordError {
    ghost use Rattle.std.specs.Prelude.{Some};
    ghost use Rattle.event_log.specs.ErrorTexts.{record_error_text};

    ghost output = { λ error. Some (record_error_text error) };

    fn fmt<W: fmt::Write>(&self, f: &mut fmt::Formatter<W>) -> fmt::Result {
        f.write_str(match self {
            RecordError::NotOneValue => "the event refused or is not one whole value",
            RecordError::NoJson => "the event has no JSON",
            RecordError::NoMemory => "cannot allocate for an event",
        })
    }
}

impl Error for RecordError {}

/// Why a value that didn't pass the check is no event.
fn unfit(error: CheckError) -> RecordError
    ensures { result ≡ unfit error }
{
    match error {
        CheckError::NoMemory => RecordError::NoMemory,
        _ => RecordError::NotOneValue,
    }
}

/// Checks that a value is one whole value, and writes its JSON to a sink that only counts, so that it can be written.
pub(crate) fn check_event<'v, V: Value<'v, Lent<'v>>>(
    alloc: Global,
    event: &'v V,
) -> Result<(), RecordError>
    ensures ok { OnOk result (HasJson (V.emission event.now)) }
    ensures cause { IfErr result (λ why. IsRecordCause why (V.emission event.now)) }
{
    match check(alloc, event) {
        Ok(()) => {}
        Err(error) => return Err(unfit(error)),
    }
    match stream_to_io_write(&mut CountSink::new(), event) {
        Ok(()) => Ok(()),
        Err(_) => Err(RecordError::NoJson),
    }
}
