//! One document, converted.

ghost use Rattle.std.specs.Prelude.{◌≡◌, ℕ, List, [], OnOk, IfErr};
ghost use Rattle.sval_filter.specs.declared.paths.Rule.TheVariants as by;
ghost use Rattle.sval_io.specs.Sinks.{WritesAll};
ghost use Rattle.sval_json_read.specs.Documents.{IsDocument};
ghost use Rattle.sval_tool.specs.Passing.{IsSinkStop, sink_error_of};
ghost use Rattle.sval_tool.specs.Conversions.{WritesLeft, WritesLeftJson, WritesAsked, IsPackError, error_of_pack};
ghost use Rattle.sval_tool.specs.Conversions.{IsDocumentDue, IsFedDue, WritesDue, IsDocumentCause, ending_of};

use crate::error::DocumentError;
use crate::left::{Halt, stream_left};
use crate::packed::write_left_cbor;
use std::alloc::Global;
use sval_cbor::CborError;
use sval_filter::{Paths, Rule};
use sval_io::{Sink, SinkError, VecSink, write_all};
use sval_json::{ErrorKind, JsonWriter, Variants};
use sval_json_read::JsonDoc;
use sval_pretty::write_pretty;

/// What a document is written as.
#[derive(Clone, Copy, Debug, PartialEq, Eq)]
pub enum Target {
    /// JSON without white space.
    Json,
    /// JSON with a line for each element and pair.
    Pretty,
    /// CBOR (RFC 8949).
    Cbor,
}

/// What is made of a document: what a rule and paths leave of its value is written as the target says.
///
/// With [`Rule::Drop`] and no path nothing is left out.
#[derive(Clone, Copy)]
pub struct Conversion<'p> {
    /// What becomes of the fields that the paths name.
    pub rule: Rule,
    /// The fields.
    pub paths: &'p Paths,
    /// What is written.
    pub target: Target,
}

/// Writes the JSON of a whole document: nothing is left out.
fn write_whole<K: Sink>(doc: &JsonDoc<'_>, out: &mut K) -> Result<(), SinkError>
    requires { (input : List ℕ) × IsDocument input doc.now }
    ensures { (input : List ℕ) → IsDocument input doc.now
        → WritesLeftJson by.Drop [] input result (K.told out.old) (K.told out.new) }
{
    doc.write_json(out)
}

/// Writes the JSON of what a rule and paths leave of a document.
fn write_left<K: Sink>(
    alloc: Global,
    rule: Rule,
    paths: &Paths,
    doc: &JsonDoc<'_>,
    out: &mut K,
) -> Result<(), SinkError>
    requires { (input : List ℕ) × IsDocument input doc.now }
    ensures { (input : List ℕ) → IsDocument input doc.now
        → WritesLeftJson rule paths.now input result (K.told out.old) (K.told out.new) }
{
    if rule == Rule::Drop && paths.as_slice().is_empty() {
        return write_whole(doc, out);
    }
    let mut writer = JsonWriter::new(out, Variants::Inside);
    match stream_left(alloc, doc, rule, paths, &mut writer) {
        Ok(()) => Ok(()),
        Err(why) => Err(stop_of(why, writer.error().kind())),
    }
}

/// What stopped the streaming of a document to a writer of JSON, by the writer's last refusal.
fn stop_of(why: Halt, kind: ErrorKind) -> SinkError
    requires { IsSinkStop why kind }
    ensures { result ≡ sink_error_of why kind }
{
    match why {
        Halt::NoMemory => SinkError::NoMemory,
        Halt::Refused => match kind {
            ErrorKind::IO => SinkError::Failed,
            ErrorKind::NoMemory => SinkError::NoMemory,
            _ => unreachable!("what is left of a document has a JSON"),
        },
    }
}

/// Writes the JSON of what a rule and paths leave of a document, laid out. The JSON is made in memory first.
fn write_laid_out<K: Sink>(
    alloc: Global,
    rule: Rule,
    paths: &Paths,
    doc: &JsonDoc<'_>,
    out: &mut K,
) -> Result<(), SinkError>
    requires { (input : List ℕ) × IsDocument input doc.now }
    ensures { (input : List ℕ) → IsDocument input doc.now
        → WritesLeft rule paths.now Target.Pretty input result (K.told out.old) (K.told out.new) }
{
    let mut json = VecSink::new(alloc);
    match write_left(alloc, rule, paths, doc, &mut json) {
        Ok(()) => write_pretty(out, json.as_slice()),
        Err(why) => Err(why),
    }
}

/// Why a document wasn't packed.
fn of_pack(why: CborError) -> DocumentError
    requires { IsPackError why }
    ensures { result ≡ error_of_pack why }
{
    match why {
        CborError::NotInteger => DocumentError::NotInteger,
        CborError::Write => DocumentError::WriteFault,
        CborError::NoMemory => DocumentError::NoMemory,
        _ => unreachable!("what is left of a document is one value, and its keys are strings"),
    }
}

/// Writes what is due of a document that was read.
fn write_asked<K: Sink>(
    alloc: Global,
    conversion: &Conversion<'_>,
    doc: &JsonDoc<'_>,
    out: &mut K,
) -> Result<(), DocumentError>
    requires { (input : List ℕ) × IsDocument input doc.now }
    ensures { (input : List ℕ) → IsDocument input doc.now
        → WritesAsked K.told conversion.now input result out.old out.new }
{
    let Conversion {
        rule,
        paths,
        target,
    } = *conversion;
    match target {
        Target::Json => Ok(write_left(alloc, rule, paths, doc, out)?),
        Target::Pretty => Ok(write_laid_out(alloc, rule, paths, doc, out)?),
        Target::Cbor => match write_left_cbor(alloc, rule, paths, doc, out) {
            Ok(()) => Ok(()),
            Err(why) => Err(of_pack(why)),
        },
    }
}

/// Converts one document, and writes it to a sink.
///
/// The bytes are read as JSON (RFC 8259). What the rule and the paths leave of the value is written as it is found, so
/// nothing of it is captured: memory is taken for the document's nodes and for what is open. The bytes of CBOR and the
/// JSON that is laid out are made in memory first.
///
/// ```
/// let mut paths = Paths::new(alloc);
/// paths.push_word("user.password")?;
/// let conversion = Conversion { rule: Rule::Drop, paths: &paths, target: Target::Json };
/// let json = b"{\"user\": {\"name\": \"a\", \"password\": \"b\"}}";
/// let mut out = VecSink::new(alloc);
/// write_document(alloc, &conversion, json.as_slice(), &mut out)?;
/// assert_eq!(rt; out.as_slice(), b"{\"user\":{\"name\":\"a\"}}".as_slice());
/// ```
///
/// # Errors
///
/// [`DocumentError::NotUtf8`] and [`DocumentError::BadJson`] come only where the bytes denote no value, and nothing was
/// written. [`DocumentError::NotInteger`] comes only for CBOR, where a number that is left has a fraction, an exponent
/// or more than 128 bits, and nothing was written. After [`DocumentError::WriteFault`] the sink's count of faults rose,
/// and it took a first part of what is due. [`DocumentError::NoMemory`] comes where the document or its CBOR couldn't be
/// kept, and nothing was written, or after a first part of what is due.
pub fn write_document<K: Sink>(
    alloc: Global,
    conversion: &Conversion<'_>,
    bytes: &[u8],
    out: &mut K,
) -> Result<(), DocumentError>
    ensures ok { OnOk result (WritesDue (IsDocumentDue conversion.now bytes.now) (K.told out.old) (K.told out.new)) }
    ensures err { let c = conversion.now in IfErr result (λ why.
        IsDocumentCause K.told c (IsDocumentDue c bytes.now) bytes.now why out.old out.new) }
{
    let doc = JsonDoc::read(alloc, bytes)?;
    write_asked(alloc, conversion, &doc, out)
}

/// Writes the end of a document: a line feed behind JSON, and nothing behind CBOR.
fn write_ending<K: Sink>(target: Target, out: &mut K) -> Result<(), SinkError>
    ensures { WritesAll result (K.told out.old) (ending_of target) (K.told out.new) }
{
    match target {
        Target::Json | Target::Pretty => write_all(out, b"\n"),
        Target::Cbor => Ok(()),
    }
}

/// Converts one document, and writes a line feed behind it, unless it is CBOR.
pub(crate) fn write_fed<K: Sink>(
    alloc: Global,
    conversion: &Conversion<'_>,
    bytes: &[u8],
    out: &mut K,
) -> Result<(), DocumentError>
    ensures ok { OnOk result (WritesDue (IsFedDue conversion.now bytes.now) (K.told out.old) (K.told out.new)) }
    ensures err { let c = conversion.now in IfErr result (λ why.
        IsDocumentCause K.told c (IsFedDue c bytes.now) bytes.now why out.old out.new) }
{
    write_document(alloc, conversion, bytes, out)?;
    Ok(write_ending(conversion.target, out)?)
}
