//! Tapes of calls, written as JSON and as CBOR.

ghost use Rattle.std.specs.Prelude.{ℕ, List, None, IfSome};
ghost use Rattle.std.specs.Bool.{OnTrue};
ghost use Rattle.sval_core.specs.Values.{makes};
ghost use Rattle.sval_check.specs.Checks.{IsOneValue};
ghost use Rattle.sval_tape.specs.Taped.{IsTape};
ghost use Rattle.sval_c.specs.Lacks.{GivesOrLacks};
ghost use Rattle.sval_c.specs.OfTapes.{CompactOfTape, PrettyOfTape, JsonOfTapeDue, CborOfTapeDue, PassesTape, WritesTape};
ghost use Rattle.sval_c.specs.Reports.{ReportsDue};

use crate::fault::Fault;
use crate::from_json::laid_out;
use crate::guarded::Guarded;
use crate::lack::{Lack, of_check, of_pack, of_tape, of_text};
use crate::report::{Report, answer};
use std::alloc::Global;
use sval_cbor::stream_to_cbor;
use sval_check::check;
use sval_core::{Lent, Stream};
use sval_io::{Sink, VecSink};
use sval_json::{JsonWriter, Variants, stream_to_vec};
use sval_tape::{Tape, json_at_once, stream_tape};

/// A stream after a tape was streamed to it through a check.
#[derive(Drop)]
struct Passed<S: Drop> {
    /// Whether it took all calls of the tape, and they are one whole value.
    whole: bool,
    /// The stream.
    stream: S,
}

/// Streams a tape in one pass through a check, and gives the stream back.
fn stream_checked<'v, S: Stream<Lent<'v>> + Drop>(
    alloc: Global,
    tape: &'v [u8],
    stream: S,
) -> Passed<S>
    ensures { OnTrue result.whole (PassesTape S.law tape.now (S.standing stream) (S.standing result.stream)) }
{
    let mut checked = Guarded::new(alloc, stream);
    match stream_tape(tape, &mut checked) {
        Ok(Ok(())) => {
            let whole = checked.is_whole();
            Passed {
                whole,
                stream: checked.into_inner(),
            }
        }
        _ => Passed {
            whole: false,
            stream: checked.into_inner(),
        },
    }
}

/// Writes the JSON of a tape in one pass, and tells whether that is all of one whole value.
fn write_tape<K: Sink>(alloc: Global, tape: &[u8], out: &mut K) -> bool
    ensures { OnTrue result (WritesTape tape.now (K.told out.old) (K.told out.new)) }
{
    let writer = JsonWriter::new(out, Variants::Inside);
    let passed = stream_checked(alloc, tape, writer);
    passed.whole
}

/// The JSON of a tape, written in one pass. Where it isn't written so, nothing is said of the cause.
fn in_one_pass(alloc: Global, tape: &[u8]) -> Option<Vec<u8>>
    ensures { IfSome result (λ json. CompactOfTape tape.now None json.items) }
{
    let Ok(mut sink) = VecSink::with_capacity(alloc, tape.len()) else {
        return None;
    };
    if write_tape(alloc, tape, &mut sink) {
        return Some(sink.into_vec());
    }
    None
}

/// The JSON of a tape whose calls are one whole value.
fn json_of(alloc: Global, tape: &Tape<'_>) -> Result<Vec<u8>, Lack>
    requires { IsOneValue (makes tape.now) }
    ensures { (bytes : List ℕ) → IsTape bytes tape.now
        → GivesOrLacks (CompactOfTape bytes) result (λ json. json.items) }
{
    match stream_to_vec(alloc, tape) {
        Ok(json) => Ok(json),
        Err(error) => Err(of_text(error)),
    }
}

/// The JSON of a tape that was read, or the first fault of its calls.
fn json_or_fault(alloc: Global, tape: &Tape<'_>) -> Result<Vec<u8>, Lack>
    ensures { (bytes : List ℕ) → IsTape bytes tape.now
        → GivesOrLacks (CompactOfTape bytes) result (λ json. json.items) }
{
    match check(alloc, tape) {
        Ok(()) => json_of(alloc, tape),
        Err(error) => Err(of_check(error)),
    }
}

/// The JSON of a tape, or its first fault: it is read, checked and written in three passes.
fn in_three_passes(alloc: Global, tape: &[u8]) -> Result<Vec<u8>, Lack>
    ensures { GivesOrLacks (CompactOfTape tape.now) result (λ json. json.items) }
{
    match Tape::read(tape) {
        Ok(tape) => json_or_fault(alloc, &tape),
        Err(error) => Err(of_tape(error)),
    }
}

/// The JSON of a tape, or its first fault. A second try finds why the first one gave none.
#[inline(never)]
fn by_calls(alloc: Global, tape: &[u8]) -> Result<Vec<u8>, Lack>
    ensures { GivesOrLacks (CompactOfTape tape.now) result (λ json. json.items) }
{
    match in_one_pass(alloc, tape) {
        Some(json) => Ok(json),
        None => in_three_passes(alloc, tape),
    }
}

/// The JSON of a tape, without white space. Where its calls aren't of the commonest kinds, they are made.
fn compact(alloc: Global, tape: &[u8]) -> Result<Vec<u8>, Lack>
    ensures { GivesOrLacks (CompactOfTape tape.now) result (λ json. json.items) }
{
    match json_at_once(alloc, tape) {
        Some(json) => Ok(json),
        None => by_calls(alloc, tape),
    }
}

/// The JSON of a tape, laid out.
fn pretty(alloc: Global, tape: &[u8]) -> Result<Vec<u8>, Lack>
    ensures { GivesOrLacks (PrettyOfTape tape.now) result (λ json. json.items) }
{
    match compact(alloc, tape) {
        Ok(json) => laid_out(alloc, json.as_slice()),
        Err(lack) => Err(lack),
    }
}

/// The JSON of a tape in the style of this number.
fn to_json(alloc: Global, tape: &[u8], style: u32) -> Result<Vec<u8>, Lack>
    ensures { GivesOrLacks (JsonOfTapeDue style tape.now) result (λ json. json.items) }
{
    match style {
        0 => compact(alloc, tape),
        1 => pretty(alloc, tape),
        _ => Err(Lack::Fault(Fault::BadChoice)),
    }
}

/// The CBOR of a tape that was read.
fn cbor_of(alloc: Global, tape: &Tape<'_>) -> Result<Vec<u8>, Lack>
    ensures { (bytes : List ℕ) → IsTape bytes tape.now
        → GivesOrLacks (CborOfTapeDue bytes) result (λ cbor. cbor.items) }
{
    let mut sink = VecSink::new(alloc);
    match stream_to_cbor(alloc, &mut sink, tape) {
        Ok(()) => Ok(sink.into_vec()),
        Err(error) => Err(of_pack(error)),
    }
}

/// The CBOR of a tape.
fn to_cbor(alloc: Global, tape: &[u8]) -> Result<Vec<u8>, Lack>
    ensures { GivesOrLacks (CborOfTapeDue tape.now) result (λ cbor. cbor.items) }
{
    match Tape::read(tape) {
        Ok(tape) => cbor_of(alloc, &tape),
        Err(error) => Err(of_tape(error)),
    }
}

/// Writes the JSON of the one value that the calls of a tape (`sval_tape`) spell. `style` is 0 for JSON without white
/// space, and 1 for JSON that is laid out as `sval_json_pretty` does.
///
/// It answers status 0, 4, 5, 6, 7, 8, 10, 18 or 19. Status 19 comes only for another
/// `style`, and with that number no other comes but 10.
#[unsafe(no_mangle)]
pub extern "C" fn sval_tape_to_json(
    alloc: Global,
    tape: &[u8],
    style: u32,
    out: &mut [u8],
) -> Report
    ensures { ReportsDue (JsonOfTapeDue style tape.now) result out.old out.new }
{
    answer(to_json(alloc, tape, style), out)
}

/// Writes the one value that the calls of a tape (`sval_tape`) spell as CBOR (RFC 8949).
///
/// It answers status 0, 4, 5, 6, 7, 8, 10, 14, 15 or 18.
#[unsafe(no_mangle)]
pub extern "C" fn sval_tape_to_cbor(alloc: Global, tape: &[u8], out: &mut [u8]) -> Report
    ensures { ReportsDue (CborOfTapeDue tape.now) result out.old out.new }
{
    answer(to_cbor(alloc, tape), out)
}
