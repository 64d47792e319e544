//! The whole program, over any words and devices.

ghost use Rattle.std.specs.Prelude.{◌≡◌, ℕ, List, true, false, Some, is_some, map, string_bytes};
ghost use Rattle.sval_core.specs.Values.{makes};
ghost use Rattle.sval_program.specs.Jobs.{ServesBytes, ServesInput};
ghost use Rattle.sval_program.specs.Runs.{Ends, Reports};
ghost use Rattle.sval_program.specs.Verdict.{Whole};
ghost use Rattle.sval_script.specs.Lines.{lines, Good};
ghost use Rattle.sval_cbor.specs.Forms.{cbor_form_of};
ghost use Rattle.sval_cbor.specs.Serves.{cbor_terms, failure_of_cbor};
ghost use Rattle.sval_cbor.specs.Streamed.{IsChecked};
ghost use Rattle.sval_cbor.specs.Verdict.{IsCborVerdict};
ghost use Rattle.sval_cbor.specs.Writing.{written_cbor};

use crate::error::CborError;
use crate::program::WriteCbor;
use crate::style::Style;
use crate::to_cbor::write_value;
use std::alloc::Global;
use sval_buffer::{ErrorKind, ValueBuf};
use sval_check::check;
use sval_core::{Lent, Value};
use sval_io::{Sink, SinkError, Source};
use sval_program::job::run;
use sval_program::{Failure, Fault, read_script};
use sval_script::Script;

/// Why a value that was captured wasn't written.
fn unwritten(error: CborError) -> Failure
    requires { is_some (failure_of_cbor error) ≡ true }
    ensures { failure_of_cbor error ≡ Some result }
{
    match error {
        CborError::Key => Failure::Fault(Fault::InvalidKey),
        CborError::Number => Failure::Fault(Fault::InvalidNumber),
        CborError::Raw => Failure::Fault(Fault::Raw),
        CborError::NotInteger => Failure::Fault(Fault::NotInteger),
        CborError::Write => Failure::Write(SinkError::Failed),
        CborError::NoMemory => Failure::Write(SinkError::NoMemory),
        CborError::BadCall { .. } => unreachable!("the calls are one whole value"),
        CborError::Unfinished => unreachable!("the calls are one whole value"),
        CborError::Refused => unreachable!("a script doesn't refuse"),
    }
}

/// Writes a value whose texts and binaries come whole, and that doesn't refuse.
fn write_captured<'v, K: Sink, V: Value<'v, Lent<'v>>>(out: &mut K, v: &'v V) -> Result<(), Failure>
    requires { (V.emission v.now).refuses ≡ false }
    ensures { (script : List ℕ) → IsCborVerdict (Whole (written_cbor (V.emission v.now).calls)) script
        → ServesBytes cbor_terms K.told tt script result out.old out.new }
{
    match write_value(v, Style::DEFAULT, &[], out) {
        Ok(()) => Ok(()),
        Err(error) => Err(unwritten(error)),
    }
}

/// Captures a script whose calls are one whole value, and writes what was captured.
fn write_tree<K: Sink>(alloc: Global, script: &Script, out: &mut K) -> Result<(), Failure>
    requires { IsChecked (makes script.now) }
    ensures { (bytes : List ℕ) → lines bytes ≡ Good script.now
        → ServesBytes cbor_terms K.told tt bytes result out.old out.new }
{
    match ValueBuf::collect(alloc, script) {
        Ok(buffer) => write_captured(out, &buffer),
        Err(error) => match error.kind() {
            ErrorKind::NoAlloc { .. } => Err(Failure::NoMemory),
            _ => unreachable!("a value that spells a tree is captured"),
        },
    }
}

/// Checks a script, and writes the value that its calls spell. The clause holds of all bytes whose lines are its calls.
fn write_script<K: Sink>(alloc: Global, script: &Script, out: &mut K) -> Result<(), Failure>
    ensures { (bytes : List ℕ) → lines bytes ≡ Good script.now
        → ServesBytes cbor_terms K.told tt bytes result out.old out.new }
{
    match check(alloc, script) {
        Ok(()) => write_tree(alloc, script, out),
        Err(error) => Err(Failure::of_check(error, false)),
    }
}

/// Reads the input whole, and serves it as a script.
pub(crate) fn serve_input<I: Source, K: Sink>(
    alloc: Global,
    input: &mut I,
    out: &mut K,
) -> Result<(), Failure>
    ensures { ServesInput cbor_terms I.told K.told tt result input.old input.new out.old out.new }
{
    let reader = read_script(alloc, input)?;
    let script = reader.finish()?;
    write_script(alloc, &script, out)
}

/// What the program's words ask for, if they are a form: the only one is no words.
pub(crate) fn named_form(words: &[String]) -> Option<()>
    ensures { result ≡ cbor_form_of words.now }
{
    match words {
        [] => Some(()),
        _ => None,
    }
}

/// Runs the program as [`run`] runs each, and answers its status, one of those of [`status`](crate::status) and of
/// [`sval_program::status`].
///
/// There are no words. The input is a script of calls. The value that its calls spell is written as
/// [`stream_to_cbor`](crate::stream_to_cbor) writes it. Of an input one thing is due: a fault or none, and the bytes to
/// write ([`verdict_laws`](crate::laws::verdict_laws)).
///
/// Its own statuses:
///
/// | status | comes |
/// |---|---|
/// | 3 | a line is no call |
/// | 4 | no value goes on with the call of a line |
/// | 5 | the calls are not one whole value |
/// | 6 | a map's key can't be written as a key |
/// | 7 | a text tagged as a number is none, and doesn't begin with s, n or i after at most one sign: then it is null |
/// | 14 | the value has text that says it is JSON |
/// | 15 | a text tagged as a number is one with a fraction, an exponent or more than 128 bits |
///
/// Of 6, 7, 14 and 15 the first cause from left to right decides. The sink is as it was after all of these.
///
/// ```
/// let mut out = VecSink::new(alloc);
/// let mut diag = VecSink::new(alloc);
/// let status = run_cbor(alloc, &[], &mut MemSource::new(b"i64 -1\n"), &mut out, &mut diag);
/// assert_eq!(rt; status, sval_program::status::DONE);
/// assert_eq!(rt; out.as_slice(), b"\x20".as_slice());
/// ```
pub fn run_cbor<I: Source, K: Sink, D: Sink>(
    alloc: Global,
    words: &[String],
    input: &mut I,
    out: &mut K,
    diag: &mut D,
) -> u8
    ensures ends { Ends cbor_terms I.told K.told (map string_bytes words.now) input.old input.new
        out.old out.new result }
    ensures reports { Reports cbor_terms I.told K.told (map string_bytes words.now) input.old input.new
        out.old out.new (D.told diag.old) (D.told diag.new) result }
{
    run::<WriteCbor, I, K, D>(alloc, words, input, out, diag)
}
