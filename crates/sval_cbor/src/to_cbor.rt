//! Values written to a sink.

ghost use Rattle.std.specs.Prelude.{◌≡◌, false, IsOk, Err};
ghost use Rattle.sval_cbor.specs.Writing.{cbor_start, written_from};
ghost use Rattle.sval_cbor.specs.Streamed.{StreamsCbor, StreamsCborAs, IsChecked, WritesCalls, AnswersDue, IsCauseOfValue, IsCborWant};
ghost use Rattle.sval_cbor.specs.Streamed.{check_error, stop_error};

use crate::counting::counts_due;
use crate::error::{CborError, Refusal, Stop};
use crate::style::Style;
use crate::writer::{Place, Writer};
use std::alloc::Global;
use sval_buffer::{ErrorKind, ValueBuf};
use sval_check::{CheckError, check};
use sval_core::{Lent, Value};
use sval_io::{CountSink, Sink, SinkError};

/// Streams a value to a sink as CBOR (RFC 8949).
///
/// On `Ok` it appended the bytes of what the tree that the value's calls spell packs to, however they cut its texts,
/// binaries and numbers. `specs/Packs.antt` says what a tree packs to, and `specs/Cbor.antt` its bytes. Texts are
/// definite. Arrays and maps end by a break (section 3.2.2). Each head is as short as can be (section 4.1), and keys
/// are texts. A variant of an enum with a name is a map of that name to its value. A binary is an array of its bytes as
/// numbers; [`stream_to_cbor_with`] can write it as a byte string. A text under `NUMBER` that is no number, but begins
/// after at most one sign with s, n or i in either case, as snan, nan and inf do, is null.
///
/// The value is checked and captured in memory of `alloc`. What was captured is written twice: the first time to see
/// that all of it can be.
///
/// ```
/// let mut sink = VecSink::new(alloc);
/// stream_to_cbor(alloc, &mut sink, &value)?;
/// assert_eq!(rt; sink.as_slice(), b"\x9f\x01\x61a\xff".as_slice());
/// ```
///
/// # Errors
///
/// - [`CborError::BadCall`] comes where no value goes on with a call. `at` is the number of the first of them, counted
///   from 1, as `check` of `sval_check` tells it.
/// - [`CborError::Unfinished`] comes where all calls can be completed, and they end before they are one whole value.
/// - [`CborError::Refused`] comes where all calls can be completed, and the value refuses after them.
/// - [`CborError::Key`] comes where a key of a map is a container, a binary, a text under `JSON_VALUE` or a variant
///   with its name.
/// - [`CborError::Number`] comes where a text under `NUMBER` is no number, and doesn't begin so that it is null.
/// - [`CborError::Raw`] comes where a text has a tag that says it is JSON.
/// - [`CborError::NotInteger`] comes where a text under `NUMBER` that is no key is a number with a fraction or an
///   exponent, or one that is not from -2^127 to 2^128-1.
///
/// Of the last four the first from left to right comes. These seven exclude each other, and leave the sink as it was.
/// Each comes wherever it is due, unless memory was wanting.
///
/// - [`CborError::Write`] comes only where the sink's count of faults rose, and never where the sink tells room for all
///   bytes. Not all of them were taken.
/// - [`CborError::NoMemory`] comes only where memory was wanting for the check or the capture, which leaves the sink as
///   it was, or where the sink's count of wants rose.
///
/// After either the sink took a first part of the bytes, and never all of them. No count ever falls. The sink isn't
/// flushed.
pub fn stream_to_cbor<'v, K: Sink, V: Value<'v, Lent<'v>>>(
    alloc: Global,
    out: &mut K,
    v: &'v V,
) -> Result<(), CborError>
    ensures streams { StreamsCbor (V.emission v.now) result (K.told out.old) (K.told out.new) }
    ensures left { IsCauseOfValue result → out.new ≡ out.old }
    ensures want { result ≡ Err CborError.NoMemory → IsCborWant K.told (V.emission v.now) out.old out.new }
{
    stream_to_cbor_with(alloc, out, v, Style::DEFAULT)
}

/// Streams a value to a sink as CBOR (RFC 8949) in this style.
///
/// On `Ok` it appended the bytes of what the tree that the value's calls spell packs to in this style. A [`Style`] says
/// which form a binary has, and how the lengths of arrays and maps are written. Where these are definite, the entries of
/// what was captured are counted first, whatever sizes its calls tell. [`stream_to_cbor`] says the rest: it is this call
/// in the style [`Style::DEFAULT`].
///
/// ```
/// let mut sink = VecSink::new(alloc);
/// stream_to_cbor_with(alloc, &mut sink, &binary, Style::BYTE_STRINGS)?;
/// assert_eq!(rt; sink.as_slice(), b"\x42\x00\xff".as_slice());
/// ```
///
/// In the style [`Style::DEFINITE`] a map of one pair is `a1`, its key and its value.
///
/// # Errors
///
/// They are those of [`stream_to_cbor`], and come of the same values in each style (the law `styles_refuse_alike` of
/// [`packing_laws`](crate::laws::packing_laws)). [`CborError::NoMemory`] comes too where memory was wanting for the
/// counts, which leaves the sink as it was.
pub fn stream_to_cbor_with<'v, K: Sink, V: Value<'v, Lent<'v>>>(
    alloc: Global,
    out: &mut K,
    v: &'v V,
    style: Style,
) -> Result<(), CborError>
    ensures streams { StreamsCborAs style (V.emission v.now) result (K.told out.old) (K.told out.new) }
    ensures left { IsCauseOfValue result → out.new ≡ out.old }
    ensures want { result ≡ Err CborError.NoMemory → IsCborWant K.told (V.emission v.now) out.old out.new }
{
    match check(alloc, v) {
        Ok(()) => write_checked(alloc, v, style, out),
        Err(why) => Err(check_error(why)),
    }
}

/// The error that says why a value's calls were not accepted.
fn check_error(why: CheckError) -> CborError
    ensures { result ≡ check_error why }
{
    match why {
        CheckError::BadCall { at } => CborError::BadCall { at },
        CheckError::Unfinished => CborError::Unfinished,
        CheckError::Refused => CborError::Refused,
        CheckError::NoMemory => CborError::NoMemory,
    }
}

/// The error that says what stopped the writer.
fn stop_error(why: Stop) -> CborError
    ensures { result ≡ stop_error why }
{
    match why {
        Stop::Step(Refusal::Key) => CborError::Key,
        Stop::Step(Refusal::Number) => CborError::Number,
        Stop::Step(Refusal::Raw) => CborError::Raw,
        Stop::Step(Refusal::NotInteger) => CborError::NotInteger,
        Stop::Sink(SinkError::Failed) => CborError::Write,
        Stop::Sink(SinkError::NoMemory) => CborError::NoMemory,
    }
}

/// Streams a value whose calls are one whole value.
fn write_checked<'v, K: Sink, V: Value<'v, Lent<'v>>>(
    alloc: Global,
    v: &'v V,
    style: Style,
    out: &mut K,
) -> Result<(), CborError>
    requires { IsChecked (V.emission v.now) }
    ensures streams { StreamsCborAs style (V.emission v.now) result (K.told out.old) (K.told out.new) }
    ensures left { IsCauseOfValue result → out.new ≡ out.old }
    ensures want { result ≡ Err CborError.NoMemory → IsCborWant K.told (V.emission v.now) out.old out.new }
{
    match ValueBuf::collect(alloc, v) {
        Ok(buffer) => match counts_due(alloc, &buffer, style.lengths) {
            Ok(counts) => write_value(&buffer, style, counts.as_slice(), out),
            Err(why) => Err(why),
        },
        Err(error) => match error.kind() {
            ErrorKind::NoAlloc { .. } => Err(CborError::NoMemory),
            _ => unreachable!("a value that spells a tree is captured"),
        },
    }
}

/// Writes a value whose texts and binaries come whole, unless a step of the writer refuses one of its calls. Where
/// lengths are definite, `counts` says how many items or pairs each container has.
pub(crate) fn write_value<'v, K: Sink, V: Value<'v, Lent<'v>>>(
    v: &'v V,
    style: Style,
    counts: &[u64],
    out: &mut K,
) -> Result<(), CborError>
    requires { (V.emission v.now).refuses ≡ false }
    ensures due { AnswersDue result (K.told out.old)
        (written_from (V.emission v.now).calls (cbor_start style counts.now)) (K.told out.new) }
    ensures left { IsCauseOfValue result → out.new ≡ out.old }
{
    match write_calls(v, style, counts, &mut CountSink::new()) {
        Ok(()) => write_whole(v, style, counts, out),
        Err(why) => Err(stop_error(why)),
    }
}

/// Writes the CBOR of a value, where neither the value nor a step refuses.
fn write_whole<'v, K: Sink, V: Value<'v, Lent<'v>>>(
    v: &'v V,
    style: Style,
    counts: &[u64],
    out: &mut K,
) -> Result<(), CborError>
    requires willing { (V.emission v.now).refuses ≡ false }
    requires whole { IsOk (written_from (V.emission v.now).calls (cbor_start style counts.now)) }
    ensures due { AnswersDue result (K.told out.old)
        (written_from (V.emission v.now).calls (cbor_start style counts.now)) (K.told out.new) }
    ensures left { IsCauseOfValue result → out.new ≡ out.old }
{
    match write_calls(v, style, counts, out) {
        Ok(()) => Ok(()),
        Err(why) => Err(stop_error(why)),
    }
}

/// Writes the calls of a value that doesn't refuse, up to what stops the writer.
fn write_calls<'v, K: Sink, V: Value<'v, Lent<'v>>>(
    v: &'v V,
    style: Style,
    counts: &[u64],
    out: &mut K,
) -> Result<(), Stop>
    requires { (V.emission v.now).refuses ≡ false }
    ensures { WritesCalls result (written_from (V.emission v.now).calls (cbor_start style counts.now))
        (K.told out.old) (K.told out.new) }
{
    let mut writer = Writer {
        sink: out,
        style,
        place: Place::Elsewhere,
        in_key: false,
        in_number: false,
        why: None,
        counts,
    };
    let streamed = v.stream(&mut writer);
    let why = writer.why;
    match streamed {
        Ok(()) => Ok(()),
        Err(_) => match why {
            Some(why) => Err(why),
            None => unreachable!("the writer stops a value that doesn't refuse"),
        },
    }
}
