//! The whole program, over any words and devices.

ghost use Rattle.std.specs.Prelude.{◌<◌, ◌^◌, ℕ, List, length, map, string_bytes};
ghost use Rattle.sval_program.specs.Jobs.{ServesBytes, ServesInput};
ghost use Rattle.sval_program.specs.Runs.{Ends, Reports};
ghost use Rattle.sval_json_read.specs.Documents.{IsDocument};
ghost use Rattle.sval_json_read.specs.Serves.{json_read_terms, WritesDueText};

use crate::document::JsonDoc;
use crate::program::ReadJson;
use std::alloc::Global;
use sval_io::{Sink, SinkError, Source, read_input};
use sval_program::job::run;
use sval_program::{Failure, ReadForm};

/// Writes what is asked for of a document.
fn write_document<K: Sink>(form: ReadForm, doc: &JsonDoc<'_>, out: &mut K) -> Result<(), SinkError>
    requires { (input : List ℕ) × IsDocument input doc.now × (length input < 2 ^ 64) }
    ensures { (input : List ℕ) → IsDocument input doc.now → length input < 2 ^ 64
        → WritesDueText K.told input form result out.old out.new }
{
    match form {
        ReadForm::Json => doc.write_json(out),
        ReadForm::Calls => doc.write_script(out),
    }
}

/// Reads bytes, and writes what is asked for of the value that they denote.
fn serve_bytes<K: Sink>(
    alloc: Global,
    form: ReadForm,
    bytes: &[u8],
    out: &mut K,
) -> Result<(), Failure>
    requires { length bytes.now < 2 ^ 64 }
    ensures { ServesBytes json_read_terms K.told form bytes.now result out.old out.new }
{
    let doc = JsonDoc::read(alloc, bytes)?;
    Ok(write_document(form, &doc, out)?)
}

/// Reads the input whole, and serves its bytes.
pub(crate) fn serve_input<I: Source, K: Sink>(
    alloc: Global,
    form: ReadForm,
    input: &mut I,
    out: &mut K,
) -> Result<(), Failure>
    ensures { ServesInput json_read_terms I.told K.told form result input.old input.new out.old out.new }
{
    let bytes = read_input(alloc, input)?;
    serve_bytes(alloc, form, bytes.as_slice(), out)
}

/// Runs the program as [`run`] runs each, and answers its status, one of those of [`status`](crate::status) and of
/// [`sval_program::status`].
///
/// The words are one word, `json` or `calls`. The input is read as a text of JSON (RFC 8259). With `json` the JSON of
/// the value that it denotes is written, without white space; it denotes the same value, with `0` for each number `-0`.
/// With `calls` the canonical script of the value's calls is written. Of an input one thing is due at most
/// ([`reading_laws`](crate::laws::reading_laws)).
///
/// Its own statuses:
///
/// | status | comes |
/// |---|---|
/// | 12 | the input is not UTF-8 |
/// | 13 | it is UTF-8 and denotes no value; the line names the byte at which it fails |
///
/// ```
/// let mut out = VecSink::new(alloc);
/// let mut diag = VecSink::new(alloc);
/// let words = [String::from_str(alloc, "json")?];
/// let status = run_read(alloc, &words, &mut MemSource::new(b" [1, -0]"), &mut out, &mut diag);
/// assert_eq!(rt; status, sval_program::status::DONE);
/// assert_eq!(rt; out.as_slice(), b"[1,0]".as_slice());
/// ```
pub fn run_read<I: Source, K: Sink, D: Sink>(
    alloc: Global,
    words: &[String],
    input: &mut I,
    out: &mut K,
    diag: &mut D,
) -> u8
    ensures ends { Ends json_read_terms I.told K.told (map string_bytes words.now) input.old input.new
        out.old out.new result }
    ensures reports { Reports json_read_terms I.told K.told (map string_bytes words.now) input.old input.new
        out.old out.new (D.told diag.old) (D.told diag.new) result }
{
    run::<ReadJson, I, K, D>(alloc, words, input, out, diag)
}
