//! The whole program, over any words and devices.

ghost use Rattle.std.specs.Prelude.{◌<◌, ◌^◌, ℕ, List, length, map, string_bytes};
ghost use Rattle.sval_program.specs.Jobs.{ServesBytes, ServesInput};
ghost use Rattle.sval_program.specs.Runs.{Ends, Reports};
ghost use Rattle.sval_cbor_read.specs.ReadErrors.{IsReadItem};
ghost use Rattle.sval_cbor_read.specs.Serves.{cbor_read_terms, IsInMemory};

use crate::document::CborDoc;
use crate::item_json::json_at_once;
use crate::program::ReadCbor;
use std::alloc::Global;
use sval_io::{Sink, SinkError, Source, read_input, write_all};
use sval_json::ErrorKind;
use sval_program::job::run;
use sval_program::{Failure, Fault, ReadForm};

/// Writes the JSON of a document.
fn write_json<K: Sink>(doc: &CborDoc<'_>, out: &mut K) -> Result<(), Failure>
    requires { (input : List ℕ) × IsReadItem input doc.now × IsInMemory input }
    ensures { (input : List ℕ) → IsReadItem input doc.now → IsInMemory input
        → ServesBytes cbor_read_terms K.told ReadForm.Json input result out.old out.new }
{
    match doc.write_json(out) {
        Ok(()) => Ok(()),
        Err(error) => match error.kind() {
            ErrorKind::IO => Err(Failure::Write(SinkError::Failed)),
            ErrorKind::NoMemory => Err(Failure::Write(SinkError::NoMemory)),
            ErrorKind::InvalidKey => Err(Failure::Fault(Fault::InvalidKey)),
            ErrorKind::InvalidNumber => unreachable!("numbers of items are numbers"),
            ErrorKind::Generic => unreachable!("a document doesn't refuse"),
        },
    }
}

/// Writes the canonical script of a document.
fn print_script<K: Sink>(doc: &CborDoc<'_>, out: &mut K) -> Result<(), Failure>
    requires { (input : List ℕ) × IsReadItem input doc.now × IsInMemory input }
    ensures { (input : List ℕ) → IsReadItem input doc.now → IsInMemory input
        → ServesBytes cbor_read_terms K.told ReadForm.Calls input result out.old out.new }
{
    Ok(doc.write_script(out)?)
}

/// Writes what is asked for of a document.
fn write_document<K: Sink>(form: ReadForm, doc: &CborDoc<'_>, out: &mut K) -> Result<(), Failure>
    requires { (input : List ℕ) × IsReadItem input doc.now × IsInMemory input }
    ensures { (input : List ℕ) → IsReadItem input doc.now → IsInMemory input
        → ServesBytes cbor_read_terms K.told form input result out.old out.new }
{
    match form {
        ReadForm::Json => write_json(doc, out),
        ReadForm::Calls => print_script(doc, out),
    }
}

/// Reads the bytes as a document, and writes what is asked for of it.
fn serve_document<K: Sink>(
    alloc: Global,
    form: ReadForm,
    bytes: &[u8],
    out: &mut K,
) -> Result<(), Failure>
    requires { length bytes.now < 2 ^ 64 }
    ensures { ServesBytes cbor_read_terms K.told form bytes.now result out.old out.new }
{
    let doc = CborDoc::read(alloc, bytes)?;
    write_document(form, &doc, out)
}

/// Reads the bytes as an item, and writes its JSON.
fn serve_json<K: Sink>(alloc: Global, bytes: &[u8], out: &mut K) -> Result<(), Failure>
    requires { length bytes.now < 2 ^ 64 }
    ensures { ServesBytes cbor_read_terms K.told ReadForm.Json bytes.now result out.old out.new }
{
    match json_at_once(alloc, bytes) {
        Some(json) => Ok(write_all(out, json.as_slice())?),
        None => serve_document(alloc, ReadForm::Json, bytes, out),
    }
}

/// Reads the bytes as an item, and writes what is asked for of it.
fn serve_bytes<K: Sink>(
    alloc: Global,
    form: ReadForm,
    bytes: &[u8],
    out: &mut K,
) -> Result<(), Failure>
    requires { length bytes.now < 2 ^ 64 }
    ensures { ServesBytes cbor_read_terms K.told form bytes.now result out.old out.new }
{
    match form {
        ReadForm::Json => serve_json(alloc, bytes, out),
        ReadForm::Calls => serve_document(alloc, form, bytes, out),
    }
}

/// Reads the input whole, and serves its bytes.
pub(crate) fn serve_input<I: Source, K: Sink>(
    alloc: Global,
    form: ReadForm,
    input: &mut I,
    out: &mut K,
) -> Result<(), Failure>
    ensures { ServesInput cbor_read_terms I.told K.told form result input.old input.new out.old out.new }
{
    let bytes = read_input(alloc, input)?;
    serve_bytes(alloc, form, bytes.as_slice(), out)
}

/// Runs the program as [`run`] runs each, and answers its status, one of those of [`status`](crate::status) and of
/// [`sval_program::status`].
///
/// The words are one word, `json` or `calls`. The input is read as one item of CBOR (RFC 8949) in the profile of
/// [`CborDoc::read`]. With `json` the JSON of the item's value is written, without white space. Byte strings are arrays
/// of numbers there, and keys that are numbers, truth values or null are texts. With `calls` the canonical script of
/// the document's calls is written. Of an input one thing is due at most
/// ([`reading_laws`](crate::laws::reading_laws)).
///
/// Its own statuses:
///
/// | status | comes |
/// |---|---|
/// | 6 | a key of the item can't be one in JSON; the sink took exactly what is written before it; never with `calls` |
/// | 16 | the input is not one item of this profile, whole and with nothing behind it |
///
/// ```
/// let mut out = VecSink::new(alloc);
/// let mut diag = VecSink::new(alloc);
/// let words = [String::from_str(alloc, "json")?];
/// let mut input = MemSource::new(b"\x7f\x61\x61\x61\x62\xff");
/// let status = run_cbor_read(alloc, &words, &mut input, &mut out, &mut diag);
/// assert_eq!(rt; status, sval_program::status::DONE);
/// assert_eq!(rt; out.as_slice(), b"\"ab\"".as_slice());
/// ```
pub fn run_cbor_read<I: Source, K: Sink, D: Sink>(
    alloc: Global,
    words: &[String],
    input: &mut I,
    out: &mut K,
    diag: &mut D,
) -> u8
    ensures ends { Ends cbor_read_terms I.told K.told (map string_bytes words.now) input.old input.new
        out.old out.new result }
    ensures reports { Reports cbor_read_terms I.told K.told (map string_bytes words.now) input.old input.new
        out.old out.new (D.told diag.old) (D.told diag.new) result }
{
    run::<ReadCbor, I, K, D>(alloc, words, input, out, diag)
}
