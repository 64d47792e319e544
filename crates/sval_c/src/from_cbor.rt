//! Items of CBOR, written as JSON.

ghost use Rattle.std.specs.Prelude.{◌<◌, ◌^◌, ℕ, List, length};
ghost use Rattle.sval_cbor_read.specs.ReadErrors.{IsReadItem};
ghost use Rattle.sval_cbor_read.specs.Serves.{IsInMemory};
ghost use Rattle.sval_c.specs.Due.{JsonOfCborDue};
ghost use Rattle.sval_c.specs.Lacks.{GivesOrLacks};
ghost use Rattle.sval_c.specs.Reports.{ReportsDue};

use crate::lack::{Lack, of_cbor, of_writing};
use crate::report::{Report, answer};
use std::alloc::Global;
use sval_cbor_read::{CborDoc, json_at_once};
use sval_json::stream_to_vec;

/// The JSON of a document.
fn json_of(alloc: Global, doc: &CborDoc<'_>) -> Result<Vec<u8>, Lack>
    requires { (input : List ℕ) × IsReadItem input doc.now × IsInMemory input }
    ensures { (input : List ℕ) → IsReadItem input doc.now → IsInMemory input
        → GivesOrLacks (JsonOfCborDue input) result (λ bytes. bytes.items) }
{
    match stream_to_vec(alloc, doc) {
        Ok(json) => Ok(json),
        Err(error) => Err(of_writing(error)),
    }
}

/// The JSON of an item that is read as a document.
fn by_document(alloc: Global, input: &[u8]) -> Result<Vec<u8>, Lack>
    requires { length input.now < 2 ^ 64 }
    ensures { GivesOrLacks (JsonOfCborDue input.now) result (λ bytes. bytes.items) }
{
    match CborDoc::read(alloc, input) {
        Ok(doc) => json_of(alloc, &doc),
        Err(error) => Err(of_cbor(error)),
    }
}

/// The JSON of an item. Where it isn't of the commonest kinds, it is read as a document.
fn to_json(alloc: Global, input: &[u8]) -> Result<Vec<u8>, Lack>
    ensures { GivesOrLacks (JsonOfCborDue input.now) result (λ bytes. bytes.items) }
{
    // So its length is known to fit.
    let _length = input.len();
    match json_at_once(alloc, input) {
        Some(json) => Ok(json),
        None => by_document(alloc, input),
    }
}

/// Writes the JSON of one item of CBOR (RFC 8949), without white space. Byte strings become arrays of numbers. Keys that
/// are numbers, truth values or null become texts.
///
/// It answers status 0, 6, 8, 10 or 16.
#[unsafe(no_mangle)]
pub extern "C" fn sval_cbor_to_json(alloc: Global, input: &[u8], out: &mut [u8]) -> Report
    ensures { ReportsDue (JsonOfCborDue input.now) result out.old out.new }
{
    answer(to_json(alloc, input), out)
}
