//! Reading texts of strangers, which may be nested deeply or have many values.

ghost use Rattle.std.specs.Prelude.{◌≡◌, ◌<◌, ◌≤◌, IfOk, IfErr, IsUtf8, length, get_or, map};
ghost use Rattle.std.specs.List.{AllByRecursion};
ghost use Rattle.sval_json.specs.Grammar.{Denotes};
ghost use Rattle.sval_json_read.specs.Calls.{document_calls};
ghost use Rattle.sval_json_read.specs.Documents.{IsDocument};
ghost use Rattle.sval_json_read.specs.JsonLimits.{IsWithin, IsLimitedTextError, IsLimitedJsonError};
ghost use Rattle.sval_json_read.specs.NodeCounts.{AreCounted};
ghost use Rattle.sval_json_read.specs.Nodes.{tokens_in};
ghost use Rattle.sval_json_read.specs.Outlines as outlines;
ghost use Rattle.sval_json_read.specs.ReadErrors.{IsReadText};
ghost use Rattle.sval_json_read.specs.SeenLimits.{StaysWithin, PassesLimit};
ghost use Rattle.sval_json_read.specs.SeenNodes.{seen_node, StandsIn};
ghost use Rattle.sval_json_read.specs.SeenReader.{expected_of};
ghost use Rattle.sval_json_read.specs.SeenValues.{value_in};
ghost use Rattle.sval_json_read.specs.ValueSizes.{FitsIn};

use super::{JsonDoc, ReadError};
use crate::node::Node;
use crate::reader::Reader;
use simdutf8::compat::from_utf8;
use std::alloc::Global;
use std::error::Error;
use std::fmt;
use sval_core::NoMemory;
use sval_io::Limits;

/// Why bytes can't be read within limits.
#[derive(Clone, Copy, Debug, PartialEq, Eq)]
pub enum LimitedError {
    /// They can't be read at all, or there was no memory.
    Read(ReadError),
    /// The array or object that begins at byte `at` is nested more deeply than allowed.
    TooDeep { at: u64 },
    /// The value or name that begins at byte `at` is one more than allowed.
    TooMany { at: u64 },
}

impl fmt::Display for LimitedError {
    ghost use Rattle.std.specs.Prelude.{Some};
    ghost use Rattle.sval_json_read.specs.LimitedTexts.{limited_error_text};

    ghost output = { λ error. Some (limited_error_text error) };

    fn fmt<W: fmt::Write>(&self, f: &mut fmt::Formatter<W>) -> fmt::Result {
        match *self {
            LimitedError::Read(error) => error.fmt(f),
            LimitedError::TooDeep { at } => write!(f, "nested too deeply at byte {at}"),
            LimitedError::TooMany { at } => write!(f, "too many values at byte {at}"),
        }
    }
}

impl Error for LimitedError {}

impl From<ReadError> for LimitedError {
    ghost use Rattle.std.specs.Prelude.{◌≡◌};
    ghost use Rattle.sval_json_read.specs.declared.document.limited.LimitedError.TheVariants as limited;

    ghost from_gives = { λ cause error. error ≡ limited.Read cause };

    fn from(cause: ReadError) -> LimitedError {
        LimitedError::Read(cause)
    }
}

impl From<NoMemory> for LimitedError {
    ghost use Rattle.std.specs.Prelude.{◌≡◌};
    ghost use Rattle.sval_json_read.specs.declared.document.ReadError.TheVariants as reading;
    ghost use Rattle.sval_json_read.specs.declared.document.limited.LimitedError.TheVariants as limited;

    ghost from_gives = { λ _ error. error ≡ limited.Read reading.NoMemory };

    fn from(_cause: NoMemory) -> LimitedError {
        LimitedError::Read(ReadError::NoMemory)
    }
}

impl<'a> JsonDoc<'a> {
    /// Reads a text whole, as [`JsonDoc::read`] does, but stops at the first byte that passes a limit.
    ///
    /// Each array or object that is open at once is a level. Each number, string, word, array and object is a node, and
    /// so is each name of a member.
    ///
    /// ```
    /// let limits = Limits { depth: 1, nodes: 3 };
    /// assert_eq!(rt; JsonDoc::read_with(alloc, b"[1, 2]".as_slice(), limits)?.root().len(), Some(2));
    /// let deep = JsonDoc::read_with(alloc, b"[1, [2]]".as_slice(), limits);
    /// assert_eq!(rt; deep.err(), Some(LimitedError::TooDeep { at: 4 }));
    /// let many = JsonDoc::read_with(alloc, b"[1, 2, 3]".as_slice(), limits);
    /// assert_eq!(rt; many.err(), Some(LimitedError::TooMany { at: 7 }));
    /// ```
    ///
    /// # Errors
    ///
    /// [`LimitedError::Read`] holds an error of [`JsonDoc::read`]. [`ReadError::NotUtf8`] comes before all others, and
    /// [`ReadError::BadJson`] only where no byte before its place passes a limit. [`LimitedError::TooDeep`] and
    /// [`LimitedError::TooMany`] tell the first byte that passes one, where some text of JSON goes on with that byte.
    /// Where it passes both, the error is `TooDeep`.
    pub fn read_with(alloc: Global, bytes: &'a [u8], limits: Limits) -> Result<Self, LimitedError>
        ensures ok { IfOk result (λ doc. IsReadText bytes.now (document_calls doc)) }
        ensures document { IfOk result (λ doc. IsDocument bytes.now doc) }
        ensures value { IfOk result (λ doc. Denotes bytes.now (value_in doc)) }
        ensures within { IfOk result (λ doc. IsWithin bytes.now limits) }
        ensures fits { IfOk result (λ doc. FitsIn limits (value_in doc)) }
        ensures err { IfErr result (IsLimitedJsonError bytes.now limits) }
    {
        match from_utf8(bytes) {
            Ok(text) => JsonDoc::read_str_with(alloc, text, limits),
            Err(error) => Err(LimitedError::Read(ReadError::NotUtf8 {
                at: error.valid_up_to() as u64,
            })),
        }
    }

    /// Reads a text whole, as [`JsonDoc::read_with`] does, but doesn't look whether it is UTF-8, which it is.
    ///
    /// # Errors
    ///
    /// Those of [`JsonDoc::read_with`], but never [`ReadError::NotUtf8`].
    pub fn read_str_with(alloc: Global, text: &'a str, limits: Limits) -> Result<Self, LimitedError>
        ensures ok { IfOk result (λ doc. IsReadText text.now (document_calls doc)) }
        ensures document { IfOk result (λ doc. IsDocument text.now doc) }
        ensures value { IfOk result (λ doc. Denotes text.now (value_in doc)) }
        ensures within { IfOk result (λ doc. IsWithin text.now limits) }
        ensures fits { IfOk result (λ doc. FitsIn limits (value_in doc)) }
        ensures err { IfErr result (IsLimitedTextError text.now limits) }
    {
        match limited_nodes(alloc, text.as_bytes(), limits) {
            Ok(nodes) => Ok(JsonDoc::of_nodes(text, nodes)),
            Err(error) => Err(error),
        }
    }
}

/// Reads the nodes of a text, as [`read_nodes`](super::read_nodes) does, and stops before a byte that passes a limit.
fn limited_nodes(alloc: Global, bytes: &[u8], limits: Limits) -> Result<Vec<Node>, LimitedError>
    requires { IsUtf8 bytes.now }
    ensures ok { IfOk result (λ nodes. IsDocument bytes.now (tokens_in bytes.now (map seen_node nodes.items))) }
    ensures stand { IfOk result (λ nodes. AllByRecursion (StandsIn bytes.now) nodes.items) }
    ensures counted { IfOk result (λ nodes. AreCounted nodes.items) }
    ensures within { IfOk result (λ nodes. IsWithin bytes.now limits) }
    ensures err { IfErr result (IsLimitedTextError bytes.now limits) }
{
    let mut reader = Reader::new(alloc);
    let mut begun: usize = 0;
    let mut at: usize = 0;
    while at < bytes.len() {
        begun = count_node(&reader, bytes, at, begun, limits)?;
        match reader.step(bytes, at) {
            Ok(true) => at += 1 + reader.plain_run(bytes, at + 1),
            Ok(false) => return Err(LimitedError::Read(ReadError::BadJson { at: at as u64 })),
            Err(cause) => return Err(LimitedError::from(cause)),
        }
    }
    match reader.finish(bytes) {
        Ok(true) => Ok(reader.nodes.into_nodes()),
        Ok(false) => Err(LimitedError::Read(ReadError::BadJson { at: at as u64 })),
        Err(cause) => Err(LimitedError::from(cause)),
    }
}

/// Counts the value or name that begins with the byte at this place, if one does: how many have begun behind it.
fn count_node(
    reader: &Reader,
    bytes: &[u8],
    at: usize,
    begun: usize,
    limits: Limits,
) -> Result<usize, LimitedError>
    requires { at < length bytes.now }
    ensures ok { IfOk result (StaysWithin
        (expected_of bytes.now reader.now.from at reader.now.expected) (length reader.now.opened)
        (get_or bytes.now at 0) begun limits) }
    ensures err { IfErr result (PassesLimit
        (expected_of bytes.now reader.now.from at reader.now.expected) (length reader.now.opened)
        (get_or bytes.now at 0) begun limits at) }
{
    if !reader.begins_node(bytes, at) {
        return Ok(begun);
    }
    if opens_level(bytes[at]) && reader.opened.len() >= limits.depth {
        return Err(LimitedError::TooDeep { at: at as u64 });
    }
    if begun >= limits.nodes {
        return Err(LimitedError::TooMany { at: at as u64 });
    }
    Ok(begun + 1)
}

/// Whether an array or an object begins with the byte.
fn opens_level(byte: u8) -> bool
    ensures { result ≡ outlines.opens_level byte }
{
    matches!(byte, b'[' | b'{')
}
