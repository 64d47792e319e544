//! Why an input has no bytes to give.

ghost use Rattle.std.specs.Prelude.{◌≡◌, Some};
ghost use Rattle.sval_c.specs.Lacks.{lack_of_json, lack_of_cbor, lack_of_writing, lack_of_pack, lack_of_relay};
ghost use Rattle.sval_c.specs.Lacks.{lack_of_tape, lack_of_check, lack_of_text, lack_of_path, lack_of_document};

use crate::fault::Fault;
use sval_cbor::CborError;
use sval_cbor_read::CborReadError;
use sval_check::CheckError;
use sval_filter::PathError;
use sval_io::SinkError;
use sval_json::{Error, ErrorKind};
use sval_json_read::ReadError;
use sval_relay::RelayError;
use sval_tape::TapeError;
use sval_tool::DocumentError;

/// Why an input has no bytes to give.
pub(crate) enum Lack {
    /// The input has this fault.
    Fault(Fault),
    /// Memory was wanting.
    NoMemory,
}

/// Why JSON wasn't read.
pub(crate) fn of_json(error: ReadError) -> Lack
    ensures { result ≡ lack_of_json error }
{
    match error {
        ReadError::NotUtf8 { at } => Lack::Fault(Fault::NotUtf8 { at }),
        ReadError::BadJson { at } => Lack::Fault(Fault::BadJson { at }),
        ReadError::NoMemory => Lack::NoMemory,
    }
}

/// Why JSON wasn't laid out in memory.
pub(crate) fn of_layout(error: SinkError) -> Lack
    requires { error ≡ SinkError.NoMemory }
    ensures { result ≡ Lack.NoMemory }
{
    match error {
        SinkError::NoMemory => Lack::NoMemory,
        SinkError::Failed => unreachable!("memory has no faults"),
    }
}

/// Why CBOR wasn't read.
pub(crate) fn of_cbor(error: CborReadError) -> Lack
    ensures { result ≡ lack_of_cbor error }
{
    match error {
        CborReadError::Malformed { .. } => Lack::Fault(Fault::BadCbor),
        CborReadError::Unsupported { .. } => Lack::Fault(Fault::BadCbor),
        CborReadError::NoMemory => Lack::NoMemory,
    }
}

/// Why the JSON of an item of CBOR wasn't written to memory.
pub(crate) fn of_writing(error: Error) -> Lack
    requires unlike_fault { error ≡ ErrorKind.IO → ⊥ }
    requires unlike_number { error ≡ ErrorKind.InvalidNumber → ⊥ }
    requires unlike_refusal { error ≡ ErrorKind.Generic → ⊥ }
    ensures { lack_of_writing error ≡ Some result }
{
    match error.kind() {
        ErrorKind::InvalidKey => Lack::Fault(Fault::InvalidKey),
        ErrorKind::NoMemory => Lack::NoMemory,
        ErrorKind::IO => unreachable!("memory has no faults"),
        ErrorKind::InvalidNumber => unreachable!("numbers of items are numbers"),
        ErrorKind::Generic => unreachable!("a document doesn't refuse"),
    }
}

/// Why the CBOR of a document or a tape wasn't written to memory.
pub(crate) fn of_pack(error: CborError) -> Lack
    requires unlike_fault { error ≡ CborError.Write → ⊥ }
    requires unlike_refusal { error ≡ CborError.Refused → ⊥ }
    ensures { lack_of_pack error ≡ Some result }
{
    match error {
        CborError::BadCall { at } => Lack::Fault(Fault::BadCall { number: at }),
        CborError::Unfinished => Lack::Fault(Fault::Unfinished),
        CborError::Key => Lack::Fault(Fault::InvalidKey),
        CborError::Number => Lack::Fault(Fault::InvalidNumber),
        CborError::Raw => Lack::Fault(Fault::Raw),
        CborError::NotInteger => Lack::Fault(Fault::NotInteger),
        CborError::NoMemory => Lack::NoMemory,
        CborError::Write => unreachable!("memory has no faults"),
        CborError::Refused => unreachable!("a document doesn't refuse"),
    }
}

/// Why the JSON of a script wasn't written to memory.
pub(crate) fn of_relay(error: RelayError) -> Lack
    requires { error ≡ RelayError.Write → ⊥ }
    ensures { lack_of_relay error ≡ Some result }
{
    match error {
        RelayError::BadLine { line } => Lack::Fault(Fault::BadLine { line }),
        RelayError::BadCall { line } => Lack::Fault(Fault::BadCall { number: line }),
        RelayError::Unfinished => Lack::Fault(Fault::Unfinished),
        RelayError::InvalidKey => Lack::Fault(Fault::InvalidKey),
        RelayError::InvalidNumber => Lack::Fault(Fault::InvalidNumber),
        RelayError::NoMemory => Lack::NoMemory,
        RelayError::Write => unreachable!("memory has no faults"),
    }
}

/// Why a tape wasn't read.
pub(crate) fn of_tape(error: TapeError) -> Lack
    ensures { result ≡ lack_of_tape error }
{
    match error {
        TapeError::Bad { at } => Lack::Fault(Fault::BadTape { at: at as u64 }),
    }
}

/// Why the calls of a tape are not one whole value.
pub(crate) fn of_check(error: CheckError) -> Lack
    requires { error ≡ CheckError.Refused → ⊥ }
    ensures { lack_of_check error ≡ Some result }
{
    match error {
        CheckError::BadCall { at } => Lack::Fault(Fault::BadCall { number: at }),
        CheckError::Unfinished => Lack::Fault(Fault::Unfinished),
        CheckError::NoMemory => Lack::NoMemory,
        CheckError::Refused => unreachable!("a tape doesn't refuse"),
    }
}

/// Why the JSON of a tape wasn't written to memory.
pub(crate) fn of_text(error: Error) -> Lack
    requires unlike_fault { error ≡ ErrorKind.IO → ⊥ }
    requires unlike_refusal { error ≡ ErrorKind.Generic → ⊥ }
    ensures { lack_of_text error ≡ Some result }
{
    match error.kind() {
        ErrorKind::InvalidKey => Lack::Fault(Fault::InvalidKey),
        ErrorKind::InvalidNumber => Lack::Fault(Fault::InvalidNumber),
        ErrorKind::NoMemory => Lack::NoMemory,
        ErrorKind::IO => unreachable!("memory has no faults"),
        ErrorKind::Generic => unreachable!("a tape doesn't refuse"),
    }
}

/// Why this line gave no path.
pub(crate) fn of_path(line: u64, error: PathError) -> Lack
    requires { error ≡ PathError.NoPath → ⊥ }
    ensures { lack_of_path line error ≡ Some result }
{
    match error {
        PathError::BadWord => Lack::Fault(Fault::BadPath { line }),
        PathError::NoMemory => Lack::NoMemory,
        PathError::NoPath => unreachable!("a word needs no path before it"),
    }
}

/// Why a document wasn't filtered to memory.
pub(crate) fn of_document(error: DocumentError) -> Lack
    requires { error ≡ DocumentError.WriteFault → ⊥ }
    ensures { lack_of_document error ≡ Some result }
{
    match error {
        DocumentError::NotUtf8 { at } => Lack::Fault(Fault::NotUtf8 { at }),
        DocumentError::BadJson { at } => Lack::Fault(Fault::BadJson { at }),
        DocumentError::NotInteger => Lack::Fault(Fault::NotInteger),
        DocumentError::NoMemory => Lack::NoMemory,
        DocumentError::WriteFault => unreachable!("memory has no faults"),
    }
}
