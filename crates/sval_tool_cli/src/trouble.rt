//! What goes wrong with an input or with what is written of it.

use crate::report::{
    Place, expected_at, push_bad_call, push_bad_cbor, push_bad_json, push_bad_line,
    push_byte_order_mark, push_left_over, push_not_utf8,
};
use std::alloc::{AllocError, AllocFailed, Global};
use sval_cbor::CborError;
use sval_core::NoMemory;
use sval_filter::PruneError;
use sval_io::SinkError;
use sval_json::ErrorKind;
use sval_json_read::ReadError;
use sval_lines::LineError;
use sval_script::PrintError;
use sval_tool::{DocumentError, End};

/// U+FEFF in UTF-8, with which some programs begin a text.
const BYTE_ORDER_MARK: [u8; 3] = [0xef, 0xbb, 0xbf];

/// Why an input isn't read to its end, or its output isn't written.
#[derive(Drop)]
pub(crate) enum Trouble {
    /// The input is wrong; this tells people where.
    Bad(String),
    /// The input failed.
    Read,
    /// The output failed.
    Write,
    /// Memory was wanting.
    NoMemory,
}

impl Trouble {
    /// How the program ends for it.
    pub(crate) fn end(&self) -> End {
        match self {
            Trouble::Bad(_) => End::BadInput,
            Trouble::Read | Trouble::Write | Trouble::NoMemory => End::Fault,
        }
    }
}

impl From<AllocError> for Trouble {
    fn from(_cause: AllocError) -> Trouble {
        Trouble::NoMemory
    }
}

impl From<LineError> for Trouble {
    fn from(cause: LineError) -> Trouble {
        match cause {
            LineError::ReadFault | LineError::TooManyLines => Trouble::Read,
            LineError::NoMemory => Trouble::NoMemory,
        }
    }
}

/// What a value has that has no place in the form that was asked for.
#[derive(Clone, Copy)]
pub(crate) enum Flaw {
    /// Its calls are not those of one value.
    NotOneValue,
    /// A key that has no CBOR.
    KeyForCbor,
    /// A key that has no JSON.
    KeyForJson,
    /// A text under `NUMBER` that is no number.
    Number,
    /// A text that stands for JSON.
    Raw,
    /// A number that isn't whole, or has more than 128 bits.
    NotWhole,
    /// A tag outside of those that scripts name.
    Tag,
    /// A text that is no JSON, though it stands for JSON.
    NoJson,
}

impl Flaw {
    /// What is said of it.
    fn text(self) -> &'static str {
        match self {
            Flaw::NotOneValue => "it is not one value",
            Flaw::KeyForCbor =>
                "a key of it is no text, number, truth value or null, and has no CBOR",
            Flaw::KeyForJson =>
                "a key of it is no text, number, truth value or null, and has no JSON",
            Flaw::Number => "a number of it is none",
            Flaw::Raw => "a text of it stands for JSON, and has no CBOR",
            Flaw::NotWhole => "a number of it is no whole number of 128 bits, and has no CBOR",
            Flaw::Tag => "a tag of it has no name in scripts",
            Flaw::NoJson => "a text of it stands for JSON, and is none",
        }
    }
}

/// Why a value that was read isn't written.
#[derive(Drop)]
pub(crate) enum Unwritten {
    /// It has no text in the form that was asked for.
    Flaw(Flaw),
    /// This is wrong with it.
    Told(String),
    /// The output failed.
    Write,
    /// Memory was wanting.
    NoMemory,
}

impl From<AllocError> for Unwritten {
    fn from(_cause: AllocError) -> Unwritten {
        Unwritten::NoMemory
    }
}

impl<T: Drop> From<AllocFailed<T>> for Unwritten {
    fn from(_cause: AllocFailed<T>) -> Unwritten {
        Unwritten::NoMemory
    }
}

impl From<NoMemory> for Unwritten {
    fn from(_cause: NoMemory) -> Unwritten {
        Unwritten::NoMemory
    }
}

impl From<ReadError> for Unwritten {
    fn from(cause: ReadError) -> Unwritten {
        match cause {
            ReadError::NotUtf8 { .. } | ReadError::BadJson { .. } => Unwritten::Flaw(Flaw::NoJson),
            ReadError::NoMemory => Unwritten::NoMemory,
        }
    }
}

impl From<SinkError> for Unwritten {
    fn from(cause: SinkError) -> Unwritten {
        match cause {
            SinkError::Failed => Unwritten::Write,
            SinkError::NoMemory => Unwritten::NoMemory,
        }
    }
}

impl From<PrintError> for Unwritten {
    fn from(cause: PrintError) -> Unwritten {
        match cause {
            PrintError::UnknownTag => Unwritten::Flaw(Flaw::Tag),
            PrintError::Refused => Unwritten::Flaw(Flaw::NotOneValue),
            PrintError::Write => Unwritten::Write,
            PrintError::NoMemory => Unwritten::NoMemory,
        }
    }
}

impl From<PruneError> for Unwritten {
    fn from(cause: PruneError) -> Unwritten {
        match cause {
            PruneError::BadCall { .. } | PruneError::Unfinished | PruneError::Refused => {
                Unwritten::Flaw(Flaw::NotOneValue)
            }
            PruneError::NoMemory => Unwritten::NoMemory,
        }
    }
}

impl From<CborError> for Unwritten {
    fn from(cause: CborError) -> Unwritten {
        match cause {
            CborError::BadCall { .. } | CborError::Unfinished | CborError::Refused => {
                Unwritten::Flaw(Flaw::NotOneValue)
            }
            CborError::Key => Unwritten::Flaw(Flaw::KeyForCbor),
            CborError::Number => Unwritten::Flaw(Flaw::Number),
            CborError::Raw => Unwritten::Flaw(Flaw::Raw),
            CborError::NotInteger => Unwritten::Flaw(Flaw::NotWhole),
            CborError::Write => Unwritten::Write,
            CborError::NoMemory => Unwritten::NoMemory,
        }
    }
}

impl From<ErrorKind> for Unwritten {
    fn from(cause: ErrorKind) -> Unwritten {
        match cause {
            ErrorKind::IO => Unwritten::Write,
            ErrorKind::NoMemory => Unwritten::NoMemory,
            ErrorKind::InvalidKey => Unwritten::Flaw(Flaw::KeyForJson),
            ErrorKind::InvalidNumber => Unwritten::Flaw(Flaw::Number),
            ErrorKind::Generic => Unwritten::Flaw(Flaw::NotOneValue),
        }
    }
}

impl Unwritten {
    /// The trouble with this value of an input: its line's number, if it is one of many.
    pub(crate) fn of(self, alloc: Global, name: &str, number: Option<u64>) -> Trouble {
        match self {
            Unwritten::Flaw(flaw) => told(value_text(alloc, name, number, flaw.text())),
            Unwritten::Told(text) => told(value_text(alloc, name, number, text.as_str())),
            Unwritten::Write => Trouble::Write,
            Unwritten::NoMemory => Trouble::NoMemory,
        }
    }
}

/// The trouble that this text tells people, if there was memory for it.
fn told(text: Result<String, AllocError>) -> Trouble {
    match text {
        Ok(text) => Trouble::Bad(text),
        Err(cause) => Trouble::from(cause),
    }
}

/// Says what is wrong with a value.
fn value_text(
    alloc: Global,
    name: &str,
    number: Option<u64>,
    cause: &str,
) -> Result<String, AllocError> {
    match number {
        Some(number) => format!(in alloc; "sval: {name}:{number}: {cause}\n"),
        None => format!(in alloc; "sval: {name}: {cause}\n"),
    }
}

/// The trouble with a text of JSON: of a whole input, or of the line with this number.
pub(crate) fn of_document(
    alloc: Global,
    error: DocumentError,
    bytes: &[u8],
    name: &str,
    number: Option<u64>,
) -> Trouble {
    let at = match error {
        DocumentError::NotUtf8 { at } | DocumentError::BadJson { at } => at,
        DocumentError::NotInteger => {
            return Unwritten::Flaw(Flaw::NotWhole).of(alloc, name, number);
        }
        DocumentError::WriteFault => return Trouble::Write,
        DocumentError::NoMemory => return Trouble::NoMemory,
    };
    let place = match number {
        Some(number) => Place::in_line(name, number, bytes, at),
        None => Place::in_document(name, bytes, at),
    };
    let mut text = String::new(alloc);
    let told = match error {
        DocumentError::NotUtf8 { .. } => push_not_utf8(&mut text, &place),
        DocumentError::BadJson { at: 0 } if bytes.starts_with(BYTE_ORDER_MARK.as_slice()) => {
            push_byte_order_mark(&mut text, &place)
        }
        _ => push_bad_json(&mut text, &place, expected_at(alloc, bytes, at)),
    };
    match told {
        Ok(()) => Trouble::Bad(text),
        Err(cause) => Trouble::from(cause),
    }
}

/// The trouble with bytes of CBOR, which fail at this offset. `said` tells people why.
pub(crate) fn of_item(alloc: Global, name: &str, bytes: &[u8], at: u64, said: &str) -> Trouble {
    let mut text = String::new(alloc);
    match push_bad_cbor(&mut text, name, bytes, at, said) {
        Ok(()) => Trouble::Bad(text),
        Err(cause) => Trouble::from(cause),
    }
}

/// The trouble with bytes behind the one item of CBOR that is read, which begin at this offset.
pub(crate) fn of_left_over(alloc: Global, name: &str, bytes: &[u8], at: u64) -> Trouble {
    let mut text = String::new(alloc);
    match push_left_over(&mut text, name, bytes, at) {
        Ok(()) => Trouble::Bad(text),
        Err(cause) => Trouble::from(cause),
    }
}

/// The trouble with a line of a script, which is no call.
pub(crate) fn of_line(alloc: Global, name: &str, bytes: &[u8], number: u64) -> Trouble {
    let mut text = String::new(alloc);
    match push_bad_line(&mut text, name, bytes, number) {
        Ok(()) => Trouble::Bad(text),
        Err(cause) => Trouble::from(cause),
    }
}

/// The trouble with the call in a line of a script, with which no value goes on.
pub(crate) fn of_call(alloc: Global, name: &str, bytes: &[u8], number: u64) -> Trouble {
    let mut text = String::new(alloc);
    match push_bad_call(&mut text, name, bytes, number) {
        Ok(()) => Trouble::Bad(text),
        Err(cause) => Trouble::from(cause),
    }
}

/// The trouble with a script whose calls can go on.
pub(crate) fn of_unfinished(alloc: Global, name: &str) -> Trouble {
    told(value_text(alloc, name, None, "the calls end before a value is whole"))
}
