//! Documents as CBOR, token by token.

ghost use Rattle.std.specs.Prelude.{◌≡◌, ℕ, List, true, false, Ok, OnOk};
ghost use Rattle.sval_cbor.specs.Cbor.{string, truth_bytes, integer};
ghost use Rattle.sval_filter.specs.Pruned.{pruned};
ghost use Rattle.sval_json.specs.Digits.{is_json_number};
ghost use Rattle.sval_json_read.specs.Documents.{IsDocument};
ghost use Rattle.sval_json_read.specs.Trees.{fits_i64, tree_of};
ghost use Rattle.sval_tool.specs.LeftTokens.{walk_after, token_stays};
ghost use Rattle.sval_tool.specs.PackedDocuments.{WritesPackedTree};
ghost use Rattle.sval_tool.specs.TokenBytes.{number_bytes_of, token_bytes, tokens_bytes, passed_bytes, left_bytes};
ghost use Rattle.sval_tool.specs.TokenBytes.{tree_bytes, TakesDue};

use crate::left::take_token;
use std::alloc::Global;
use sval_cbor::{CborError, write_i64, write_number, write_text_string};
use sval_core::NoMemory;
use sval_filter::{Paths, Rule, Walk};
use sval_io::{Sink, VecSink, write_all, write_in_place};
use sval_json_read::{JsonDoc, JsonMark, JsonText, JsonToken};

/// Why a document wasn't packed.
#[derive(Clone, Copy)]
pub(crate) enum Unpacked {
    /// A number has a fraction, an exponent or more than 128 bits.
    NotInteger,
    /// Memory was wanting.
    NoMemory,
}

impl From<NoMemory> for Unpacked {
    ghost use Rattle.std.specs.Prelude.{◌≡◌};
    ghost use Rattle.sval_tool.specs.declared.packed.Unpacked.TheVariants.{NoMemory};

    ghost from_gives = { λ _ why. why ≡ NoMemory };

    fn from(_cause: NoMemory) -> Unpacked {
        Unpacked::NoMemory
    }
}

/// The byte of a truth value (RFC 8949, section 3.3).
fn truth_byte(value: bool) -> &'static [u8]
    ensures { result.now ≡ truth_bytes value }
{
    if value { b"\xf5" } else { b"\xf4" }
}

/// Puts bytes as they are.
#[tactic(auto, using(crate::proofs::TakenBytes::took))]
fn put_bytes(bytes: &[u8], out: &mut VecSink) -> Result<(), Unpacked>
    ensures { TakesDue result (Ok bytes.now) out.old out.new }
{
    match write_in_place(out, bytes) {
        Ok(()) => Ok(()),
        Err(_) => Err(Unpacked::NoMemory),
    }
}

/// Puts an integer.
#[tactic(auto, using(crate::proofs::TakenBytes::took))]
#[inline(always)]
fn put_i64(number: i64, out: &mut VecSink) -> Result<(), Unpacked>
    ensures { TakesDue result (Ok (integer number)) out.old out.new }
{
    match write_i64(out, number) {
        Ok(()) => Ok(()),
        Err(_) => Err(Unpacked::NoMemory),
    }
}

/// Puts a number that fits no `i64`.
fn put_number(text: &str, out: &mut VecSink) -> Result<(), Unpacked>
    requires proper { is_json_number text.now ≡ true }
    requires other { fits_i64 text.now ≡ false }
    ensures { TakesDue result (number_bytes_of text.now) out.old out.new }
{
    match write_number(out, text) {
        Ok(()) => Ok(()),
        Err(CborError::NotInteger) => Err(Unpacked::NotInteger),
        Err(_) => Err(Unpacked::NoMemory),
    }
}

/// Puts a text string.
#[tactic(auto, using(crate::proofs::TakenBytes::took))]
#[inline(always)]
fn put_string(text: &str, out: &mut VecSink) -> Result<(), Unpacked>
    ensures { TakesDue result (Ok (string 3 text.now)) out.old out.new }
{
    match write_text_string(out, text) {
        Ok(()) => Ok(()),
        Err(_) => Err(Unpacked::NoMemory),
    }
}

/// Puts a string. It copies one that has an escape.
#[inline(always)]
fn put_text(alloc: Global, text: &JsonText<'_>, out: &mut VecSink) -> Result<(), Unpacked>
    ensures { TakesDue result (Ok (string 3 text.now)) out.old out.new }
{
    match text.as_lent() {
        Some(lent) => put_string(lent, out),
        None => match text.to_text(alloc) {
            Ok(copy) => put_string(copy.as_str(), out),
            Err(_) => Err(Unpacked::NoMemory),
        },
    }
}

/// Puts a token.
#[tactic(auto, using(crate::proofs::TakenBytes::by_mark))]
#[inline(always)]
fn put_token(alloc: Global, token: &JsonToken<'_>, out: &mut VecSink) -> Result<(), Unpacked>
    ensures { TakesDue result (token_bytes token.now.token) out.old out.new }
{
    match token.mark() {
        JsonMark::Null => put_bytes(b"\xf6", out),
        JsonMark::Bool(value) => put_bytes(truth_byte(value), out),
        JsonMark::Int(number) => put_i64(number, out),
        JsonMark::Number(text) => put_number(text, out),
        JsonMark::Text(text) => put_text(alloc, &text, out),
        JsonMark::BeginArray => put_bytes(b"\x9f", out),
        JsonMark::BeginObject => put_bytes(b"\xbf", out),
        JsonMark::EndArray => put_bytes(b"\xff", out),
        JsonMark::EndObject => put_bytes(b"\xff", out),
    }
}

/// Puts all tokens of a document.
fn put_whole(alloc: Global, doc: &JsonDoc<'_>, out: &mut VecSink) -> Result<(), Unpacked>
    ensures { TakesDue result (tokens_bytes doc.now) out.old out.new }
{
    let mut tokens = doc.tokens();
    while let Some(token) = tokens.next() {
        put_token(alloc, &token, out)?;
    }
    Ok(())
}

/// Takes a token, and puts it, if it stays.
fn put_passed(
    alloc: Global,
    walk: &mut Walk<'_>,
    token: &JsonToken<'_>,
    out: &mut VecSink,
) -> Result<(), Unpacked>
    ensures walk { OnOk result (walk.new ≡ walk_after walk.old token.now) }
    ensures puts { let due = passed_bytes (token_stays walk.old token.now) token.now.token in
        TakesDue result due out.old out.new }
{
    if !take_token(alloc, walk, token)? {
        return Ok(());
    }
    put_token(alloc, token, out)
}

/// Puts the tokens of a document that a rule and paths leave, by a walk over all of them.
fn put_by_walk(
    alloc: Global,
    rule: Rule,
    paths: &Paths,
    doc: &JsonDoc<'_>,
    out: &mut VecSink,
) -> Result<(), Unpacked>
    ensures { TakesDue result (left_bytes rule paths.now doc.now) out.old out.new }
{
    let mut walk = Walk::new(alloc, rule, paths);
    let mut tokens = doc.tokens();
    while let Some(token) = tokens.next() {
        put_passed(alloc, &mut walk, &token, out)?;
    }
    Ok(())
}

/// Puts what a rule and paths leave of a document.
fn put_left(
    alloc: Global,
    rule: Rule,
    paths: &Paths,
    doc: &JsonDoc<'_>,
    out: &mut VecSink,
) -> Result<(), Unpacked>
    ensures { (input : List ℕ) (read : IsDocument input doc.now)
        → TakesDue result (tree_bytes (pruned rule paths.now (tree_of read.value))) out.old out.new }
{
    if rule == Rule::Drop && paths.as_slice().is_empty() {
        return put_whole(alloc, doc, out);
    }
    put_by_walk(alloc, rule, paths, doc, out)
}

/// Writes what a rule and paths leave of a document to a sink as CBOR (RFC 8949).
///
/// On `Ok` it appended the bytes of what the tree of the document's value, without what is left out, packs to. It goes
/// over the tokens once. Their bytes are made in memory first, and then written.
///
/// ```
/// let mut paths = Paths::new(alloc);
/// paths.push_word("a")?;
/// let doc = JsonDoc::read_str(alloc, "{\"a\": 1.5, \"b\": 1}")?;
/// let mut out = VecSink::new(alloc);
/// write_left_cbor(alloc, Rule::Drop, &paths, &doc, &mut out)?;
/// assert_eq!(rt; out.as_slice(), b"\xbf\x61b\x01\xff".as_slice());
/// ```
///
/// # Errors
///
/// - [`CborError::NotInteger`] comes exactly where a number that is left has a fraction, an exponent or more than 128
///   bits, unless memory was wanting. Nothing was written.
/// - [`CborError::Write`] comes where the sink failed, after a first part of the bytes.
/// - [`CborError::NoMemory`] comes where memory was wanting for the bytes, and nothing was written, or from the sink,
///   after a first part of them.
pub fn write_left_cbor<K: Sink>(
    alloc: Global,
    rule: Rule,
    paths: &Paths,
    doc: &JsonDoc<'_>,
    out: &mut K,
) -> Result<(), CborError>
    ensures { (input : List ℕ) (read : IsDocument input doc.now)
        → WritesPackedTree K.told (pruned rule paths.now (tree_of read.value)) result out.old out.new }
{
    let mut bytes = VecSink::new(alloc);
    match put_left(alloc, rule, paths, doc, &mut bytes) {
        Ok(()) => Ok(write_all(out, bytes.as_slice())?),
        Err(Unpacked::NotInteger) => Err(CborError::NotInteger),
        Err(Unpacked::NoMemory) => Err(CborError::NoMemory),
    }
}

/// Writes a document to a sink as CBOR (RFC 8949).
///
/// On `Ok` it appended what [`stream_to_cbor`](sval_cbor::stream_to_cbor) writes of the document: the bytes of what the
/// tree of its value packs to. It goes over the tokens once. Their bytes are made in memory first, and then written.
///
/// ```
/// let doc = JsonDoc::read_str(alloc, "[1, \"a\"]")?;
/// let mut out = VecSink::new(alloc);
/// write_cbor(alloc, &doc, &mut out)?;
/// assert_eq!(rt; out.as_slice(), b"\x9f\x01\x61a\xff".as_slice());
/// ```
///
/// # Errors
///
/// - [`CborError::NotInteger`] comes exactly where a number has a fraction, an exponent or more than 128 bits, unless
///   memory was wanting. Nothing was written.
/// - [`CborError::Write`] comes where the sink failed, after a first part of the bytes.
/// - [`CborError::NoMemory`] comes where memory was wanting for the bytes, and nothing was written, or from the sink,
///   after a first part of them.
pub fn write_cbor<K: Sink>(alloc: Global, doc: &JsonDoc<'_>, out: &mut K) -> Result<(), CborError>
    ensures { (input : List ℕ) (read : IsDocument input doc.now)
        → WritesPackedTree K.told (tree_of read.value) result out.old out.new }
{
    write_left_cbor(alloc, Rule::Drop, &Paths::new(alloc), doc, out)
}
