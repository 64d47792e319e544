//! Scripts in memory, served.

ghost use Rattle.std.specs.Prelude.{◌≡◌, ℕ, ◌<◌, ◌^◌, true, false, List, Some, length};
ghost use Rattle.sval_script.specs.Lines.{lines, Good};
ghost use Rattle.sval_relay.specs.Verdict.{one_in, all_in, OnVerdict};
ghost use Rattle.sval_relay.specs.Relays.{of_check, LacksRoomFor, Relays};
ghost use Rattle.sval_relay.specs.WrittenTrees.{IsOfScript};

use crate::lists::write_list;
use crate::one_value::write_checked;
use crate::way::Way;
use std::alloc::Global;
use std::error::Error;
use std::fmt;
use sval_check::{CheckError, check_all};
use sval_io::{Sink, SinkError};
use sval_script::{Script, ScriptError};

/// Why a script wasn't served, or not whole.
#[derive(Clone, Copy, Debug, PartialEq, Eq)]
pub enum RelayError {
    /// This line, counted from 1, is the first that is none.
    BadLine {
        /// The line's number.
        line: u64,
    },
    /// No value goes on with the call of this line, counted from 1.
    BadCall {
        /// The line's number.
        line: u64,
    },
    /// The calls are not one whole value.
    Unfinished,
    /// A map's key can't be written as a key.
    InvalidKey,
    /// A text tagged as a number is no number.
    InvalidNumber,
    /// The sink failed.
    Write,
    /// Memory was wanting.
    NoMemory,
}

impl fmt::Display for RelayError {
    ghost use Rattle.std.specs.Prelude.{Some};
    ghost use Rattle.sval_relay.specs.ErrorTexts.{relay_error_text};

    ghost output = { λ error. Some (relay_error_text error) };

    fn fmt<W: fmt::Write>(&self, f: &mut fmt::Formatter<W>) -> fmt::Result {
        match *self {
            RelayError::BadLine { line } => write!(f, "line {line}: not a call"),
            RelayError::BadCall { line } => {
                write!(f, "line {line}: no value goes on with this call")
            }
            RelayError::Unfinished => f.write_str("the calls are not one whole value"),
            RelayError::InvalidKey => f.write_str("attempt to serialize a non-string key"),
            RelayError::InvalidNumber => f.write_str("attempt to serialize an invalid number"),
            RelayError::Write => f.write_str("write fault"),
            RelayError::NoMemory => f.write_str("out of memory"),
        }
    }
}

impl Error for RelayError {}

impl From<ScriptError> for RelayError {
    ghost use Rattle.sval_relay.specs.Relays.{of_script};

    ghost from_gives = { λ error answer. answer ≡ of_script error };

    fn from(error: ScriptError) -> RelayError {
        match error {
            ScriptError::BadLine { line } => RelayError::BadLine { line },
            ScriptError::NoMemory => RelayError::NoMemory,
        }
    }
}

impl From<SinkError> for RelayError {
    ghost use Rattle.sval_relay.specs.Relays.{of_sink};

    ghost from_gives = { λ error answer. answer ≡ of_sink error };

    fn from(error: SinkError) -> RelayError {
        match error {
            SinkError::Failed => RelayError::Write,
            SinkError::NoMemory => RelayError::NoMemory,
        }
    }
}

/// Serves one script in memory: reads its lines, checks their calls, and writes what `way` makes of the one value that
/// they spell.
///
/// On `Ok` the sink took exactly that JSON's text, or that canonical script. Where raw texts and identifiers are what
/// their tags promise, JSON denotes the one value that is meant; a canonical script spells the value's canonical calls.
/// Where the sink counted no fault, the answer is the one that the script's verdict asks for, unless memory was
/// wanting. A script may have any length, but a field that spells a text or a binary of 4 GiB or more is answered as
/// want of memory.
///
/// ```
/// let mut sink = VecSink::new(alloc);
/// relay(alloc, b"bool true\n", Way::Direct, &mut sink)?;
/// assert_eq!(rt; sink.as_slice(), b"true".as_slice());
/// ```
///
/// # Errors
///
/// [`RelayError::BadLine`], [`RelayError::BadCall`] and [`RelayError::Unfinished`] come only where the script is so, in
/// this order, and leave the sink as it was. [`RelayError::InvalidKey`] and [`RelayError::InvalidNumber`] come only
/// where the value has no JSON for that cause, the first from left to right; the sink took exactly what is written up
/// to there. Neither comes in the way `Calls`. [`RelayError::Write`] comes only where the sink's count of faults rose,
/// and of a sink that tells its room only where what is due has no place in it. [`RelayError::NoMemory`] comes where
/// memory was wanting, or for a field of 4 GiB or more, and never for an empty script; it leaves the sink as it was,
/// unless the sink's own count of wants rose. After `Write`, and after `NoMemory` where that count rose, a first part
/// of what is due may have been taken. The sink isn't flushed.
pub fn relay<K: Sink>(alloc: Global, script: &[u8], way: Way, out: &mut K) -> Result<(), RelayError>
    ensures relays { Relays K.told script.now (one_in way) result out.old out.new }
    ensures write_room { result ≡ Err RelayError.Write
        → OnVerdict (LacksRoomFor (K.told out.old)) script.now (one_in way) }
    ensures some_line { result ≡ Err RelayError.NoMemory → 0 < length script.now }
{
    // So its length is known to fit.
    let _length = script.len();
    let script = Script::read(alloc, script)?;
    serve_one(alloc, &script, way, out)
}

/// Serves a script in memory that spells values one after another: what [`relay`] writes of one is written of each, in
/// JSON with a line feed behind it.
///
/// All lines are read and all calls checked before anything is written. In the ways that capture each value is captured
/// by itself.
///
/// ```
/// let mut sink = VecSink::new(alloc);
/// relay_lines(alloc, b"null\nbool true\n", Way::Direct, &mut sink)?;
/// assert_eq!(rt; sink.as_slice(), b"null\ntrue\n".as_slice());
/// ```
///
/// # Errors
///
/// Those of [`relay`], for the same causes in the list of values. [`RelayError::InvalidKey`] and
/// [`RelayError::InvalidNumber`] are those of the first value that has no JSON; the sink took all before it, and
/// exactly what is written of it up to there. After [`RelayError::NoMemory`] in a way that captures, a first part of
/// what is due may have been taken, and no count of the sink moved, unless its count of wants rose.
pub fn relay_lines<K: Sink>(
    alloc: Global,
    script: &[u8],
    way: Way,
    out: &mut K,
) -> Result<(), RelayError>
    ensures relays { Relays K.told script.now (all_in way) result out.old out.new }
    ensures write_room { result ≡ Err RelayError.Write
        → OnVerdict (LacksRoomFor (K.told out.old)) script.now (all_in way) }
    ensures some_line { result ≡ Err RelayError.NoMemory → 0 < length script.now }
{
    // So its length is known to fit.
    let _length = script.len();
    let script = Script::read(alloc, script)?;
    serve_list(alloc, &script, way, out)
}

/// What checking the calls of a script found, which never refuses.
fn found(error: CheckError) -> RelayError
    requires { error ≡ CheckError.Refused → ⊥ }
    ensures { of_check error ≡ Some result }
{
    match error {
        CheckError::BadCall { at } => RelayError::BadCall { line: at },
        CheckError::Unfinished => RelayError::Unfinished,
        CheckError::NoMemory => RelayError::NoMemory,
        CheckError::Refused => unreachable!("a script doesn't refuse"),
    }
}

/// Serves a script that has to spell one value.
fn serve_one<K: Sink>(
    alloc: Global,
    script: &Script,
    way: Way,
    out: &mut K,
) -> Result<(), RelayError>
    requires few { length script.now < 2 ^ 64 }
    requires read { IsOfScript script.now }
    ensures relays { (bytes : List ℕ) → length bytes < 2 ^ 64 → lines bytes ≡ Good script.now
        → Relays K.told bytes (one_in way) result out.old out.new }
    ensures write_room { (bytes : List ℕ) → lines bytes ≡ Good script.now → result ≡ Err RelayError.Write
        → OnVerdict (LacksRoomFor (K.told out.old)) bytes (one_in way) }
    ensures some_call { result ≡ Err RelayError.NoMemory → 0 < length script.now }
{
    match write_checked(alloc, script, way, out) {
        Ok(written) => written,
        Err(error) => Err(found(error)),
    }
}

/// Serves a script that may spell many values.
fn serve_list<K: Sink>(
    alloc: Global,
    script: &Script,
    way: Way,
    out: &mut K,
) -> Result<(), RelayError>
    requires few { length script.now < 2 ^ 64 }
    requires read { IsOfScript script.now }
    ensures relays { (bytes : List ℕ) → length bytes < 2 ^ 64 → lines bytes ≡ Good script.now
        → Relays K.told bytes (all_in way) result out.old out.new }
    ensures write_room { (bytes : List ℕ) → lines bytes ≡ Good script.now → result ≡ Err RelayError.Write
        → OnVerdict (LacksRoomFor (K.told out.old)) bytes (all_in way) }
    ensures some_call { result ≡ Err RelayError.NoMemory → 0 < length script.now }
{
    match check_all(alloc, script) {
        Ok(ends) => write_list(alloc, script.as_slice(), &ends, way, out),
        Err(error) => Err(found(error)),
    }
}
