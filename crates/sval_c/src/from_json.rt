//! Texts of JSON: checked, written without white space, laid out, and written as CBOR.

ghost use Rattle.std.specs.Prelude.{◌≡◌, ℕ, List, IfOk, IfErr};
ghost use Rattle.sval_json_read.specs.Calls.{document_calls};
ghost use Rattle.sval_json_read.specs.ReadErrors.{IsReadText};
ghost use Rattle.sval_pretty.specs.Layout.{pretty};
ghost use Rattle.sval_c.specs.Due.{CheckDue, CompactDue, PrettyDue, CborOfTextDue};
ghost use Rattle.sval_c.specs.Lacks.{GivesOrLacks};
ghost use Rattle.sval_c.specs.Reports.{Judges, ReportsDue};

use crate::lack::{Lack, of_json, of_layout, of_pack};
use crate::report::{Report, answer, of_checked, of_lack};
use std::alloc::Global;
use sval_cbor::stream_to_cbor;
use sval_io::VecSink;
use sval_json::{Error, ErrorKind, stream_to_vec};
use sval_json_read::JsonDoc;
use sval_pretty::pretty_to_vec;

/// Why the JSON of a document wasn't written to memory.
fn want(error: Error) -> Lack
    requires { error ≡ ErrorKind.NoMemory }
    ensures { result ≡ Lack.NoMemory }
{
    match error.kind() {
        ErrorKind::NoMemory => Lack::NoMemory,
        _ => unreachable!("a document has JSON, and memory has no faults"),
    }
}

/// The JSON of a document.
fn json_of(alloc: Global, doc: &JsonDoc<'_>) -> Result<Vec<u8>, Lack>
    requires { (input : List ℕ) × IsReadText input (document_calls doc.now) }
    ensures { (input : List ℕ) → IsReadText input (document_calls doc.now)
        → GivesOrLacks (CompactDue input) result (λ bytes. bytes.items) }
{
    match stream_to_vec(alloc, doc) {
        Ok(json) => Ok(json),
        Err(error) => Err(want(error)),
    }
}

/// Reads a text, and writes its JSON.
fn compact(alloc: Global, input: &[u8]) -> Result<Vec<u8>, Lack>
    ensures { GivesOrLacks (CompactDue input.now) result (λ bytes. bytes.items) }
{
    match JsonDoc::read(alloc, input) {
        Ok(doc) => json_of(alloc, &doc),
        Err(error) => Err(of_json(error)),
    }
}

/// Lays out the JSON of a text.
pub(crate) fn laid_out(alloc: Global, json: &[u8]) -> Result<Vec<u8>, Lack>
    ensures laid { IfOk result (λ bytes. bytes.items ≡ pretty json.now) }
    ensures want { IfErr result (λ lack. lack ≡ Lack.NoMemory) }
{
    match pretty_to_vec(alloc, json) {
        Ok(bytes) => Ok(bytes),
        Err(error) => Err(of_layout(error)),
    }
}

/// Reads a text, and lays out its JSON.
fn to_pretty(alloc: Global, input: &[u8]) -> Result<Vec<u8>, Lack>
    ensures { GivesOrLacks (PrettyDue input.now) result (λ bytes. bytes.items) }
{
    match compact(alloc, input) {
        Ok(json) => laid_out(alloc, json.as_slice()),
        Err(lack) => Err(lack),
    }
}

/// The CBOR of a document.
fn cbor_of(alloc: Global, doc: &JsonDoc<'_>) -> Result<Vec<u8>, Lack>
    requires { (input : List ℕ) × IsReadText input (document_calls doc.now) }
    ensures { (input : List ℕ) → IsReadText input (document_calls doc.now)
        → GivesOrLacks (CborOfTextDue input) result (λ bytes. bytes.items) }
{
    let mut sink = VecSink::new(alloc);
    match stream_to_cbor(alloc, &mut sink, doc) {
        Ok(()) => Ok(sink.into_vec()),
        Err(error) => Err(of_pack(error)),
    }
}

/// Reads a text, and writes its CBOR.
fn to_cbor(alloc: Global, input: &[u8]) -> Result<Vec<u8>, Lack>
    ensures { GivesOrLacks (CborOfTextDue input.now) result (λ bytes. bytes.items) }
{
    match JsonDoc::read(alloc, input) {
        Ok(doc) => cbor_of(alloc, &doc),
        Err(error) => Err(of_json(error)),
    }
}

/// Whether bytes are a text of JSON (RFC 8259). No bytes are due, so it takes no buffer.
///
/// It answers status 0, 10, 12 or 13.
#[unsafe(no_mangle)]
pub extern "C" fn sval_json_check(alloc: Global, input: &[u8]) -> Report
    ensures { Judges (CheckDue input.now) result }
{
    match JsonDoc::read(alloc, input) {
        Ok(_doc) => of_checked(),
        Err(error) => of_lack(of_json(error)),
    }
}

/// Writes the JSON of the value that a text of JSON (RFC 8259) denotes, without white space. The number `-0` is written
/// as `0`.
///
/// It answers status 0, 8, 10, 12 or 13.
#[unsafe(no_mangle)]
pub extern "C" fn sval_json_compact(alloc: Global, input: &[u8], out: &mut [u8]) -> Report
    ensures { ReportsDue (CompactDue input.now) result out.old out.new }
{
    answer(compact(alloc, input), out)
}

/// Writes the JSON of the value that a text of JSON (RFC 8259) denotes, laid out: a line for each element and member,
/// and two spaces for each level. The number `-0` is written as `0`.
///
/// It answers status 0, 8, 10, 12 or 13.
#[unsafe(no_mangle)]
pub extern "C" fn sval_json_pretty(alloc: Global, input: &[u8], out: &mut [u8]) -> Report
    ensures { ReportsDue (PrettyDue input.now) result out.old out.new }
{
    answer(to_pretty(alloc, input), out)
}

/// Writes the value that a text of JSON (RFC 8259) denotes as CBOR (RFC 8949).
///
/// It answers status 0, 8, 10, 12, 13 or 15.
#[unsafe(no_mangle)]
pub extern "C" fn sval_json_to_cbor(alloc: Global, input: &[u8], out: &mut [u8]) -> Report
    ensures { ReportsDue (CborOfTextDue input.now) result out.old out.new }
{
    answer(to_cbor(alloc, input), out)
}
