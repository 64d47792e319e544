//! Documents: texts that were read.

ghost use Rattle.std.specs.Prelude.{◌≡◌, ℕ, List, true, IfOk, IfErr, IsUtf8, map};
ghost use Rattle.std.specs.List.{AllByRecursion};
ghost use Rattle.sval_core.specs.Values.{makes};
ghost use Rattle.sval_io.specs.Sinks.{WritesAll};
ghost use Rattle.sval_json.specs.Grammar.{Denotes};
ghost use Rattle.sval_json.specs.Json.{Json, compact};
ghost use Rattle.sval_json.specs.Shape.{json_of};
ghost use Rattle.sval_script.specs.Canon.{canon};
ghost use Rattle.sval_json_read.specs.Calls.{document_calls};
ghost use Rattle.sval_json_read.specs.SeenValues.{value_in};
ghost use Rattle.sval_json_read.specs.Documents.{IsDocument};
ghost use Rattle.sval_json_read.specs.Nodes.{tokens_in};
ghost use Rattle.sval_json_read.specs.NodeCounts.{AreCounted};
ghost use Rattle.sval_json_read.specs.SeenNodes.{seen_node, StandsIn};
ghost use Rattle.sval_json_read.specs.TokenTexts.{tokens_text};
ghost use Rattle.sval_json_read.specs.Trees.{tree_of};
ghost use Rattle.sval_json_read.specs.ReadErrors.{IsJsonReadError, IsTextReadError, IsReadText};

mod bytes;
mod front;
mod limited;

use crate::json_ref::JsonRef;
use crate::json_tokens::JsonTokens;
use crate::node::Node;
use crate::node_calls::stream_nodes;
use crate::node_script::print_nodes;
use crate::node_text::write_nodes;
use crate::reader::Reader;
pub use limited::LimitedError;
use simdutf8::compat::from_utf8;
use std::alloc::Global;
use std::error::Error;
use std::fmt;
use std::marker::Model;
use sval_core::{Lent, NoMemory, Result as StreamResult, Stream, Value};
use sval_io::{Sink, SinkError};
use sval_ref::ValueRef;

/// Why bytes can't be read.
#[derive(Clone, Copy, Debug, PartialEq, Eq)]
pub enum ReadError {
    /// They are not UTF-8. `at` is the length of their longest front that is UTF-8.
    NotUtf8 { at: u64 },
    /// They denote no value. `at` is the offset of the first byte with which no valid JSON text could go on, or the
    /// length where the text ends too early.
    BadJson { at: u64 },
    /// There was no memory for what is kept of them, or a number or string in them is 4 GiB or longer.
    NoMemory,
}

impl fmt::Display for ReadError {
    ghost use Rattle.std.specs.Prelude.{Some};
    ghost use Rattle.sval_json_read.specs.ErrorTexts.{read_error_text};

    ghost output = { λ error. Some (read_error_text error) };

    fn fmt<W: fmt::Write>(&self, f: &mut fmt::Formatter<W>) -> fmt::Result {
        match *self {
            ReadError::NotUtf8 { at } => write!(f, "invalid UTF-8 at byte {at}"),
            ReadError::BadJson { at } => write!(f, "invalid JSON at byte {at}"),
            ReadError::NoMemory => f.write_str("cannot allocate for a document"),
        }
    }
}

impl Error for ReadError {}

impl From<NoMemory> for ReadError {
    ghost use Rattle.std.specs.Prelude.{◌≡◌};
    ghost use Rattle.sval_json_read.specs.declared.document.ReadError.TheVariants as reading;

    ghost from_gives = { λ _ error. error ≡ reading.NoMemory };

    fn from(_cause: NoMemory) -> ReadError {
        ReadError::NoMemory
    }
}

/// A text that was read, seen as its tokens.
///
/// It is a value, which makes their calls, lends its texts from the bytes and never refuses. It takes no memory for
/// that.
#[derive(Drop)]
pub struct JsonDoc<'a> {
    text: &'a str,
    nodes: Vec<Node>,
}

impl<'a> Model for JsonDoc<'a> {
    ghost use Rattle.std.specs.Prelude.{List, map};
    ghost use Rattle.sval_json_read.specs.KeptDocuments.{IsKeptDocument};
    ghost use Rattle.sval_json_read.specs.Nodes.{tokens_in};
    ghost use Rattle.sval_json_read.specs.SeenNodes.{seen_node};
    ghost use Rattle.sval_json_read.specs.Tokens.{Placed};

    ghost Value = { List Placed };

    ghost view = { λ doc. tokens_in doc.text.now (map seen_node doc.nodes.items) };

    ghost invariant = { λ doc. IsKeptDocument doc.text.now doc.nodes.items };
}

impl<'a> JsonDoc<'a> {
    /// Reads a text whole. The document makes the calls of what it denotes.
    ///
    /// ```
    /// let doc = JsonDoc::read(alloc, b"{\"a\" : [1, 1.50e+3]}".as_slice())?;
    /// assert_eq!(rt; stream_to_vec(alloc, &doc)?.as_slice(), b"{\"a\":[1,1.50e+3]}".as_slice());
    /// assert_eq!(rt; JsonDoc::read(alloc, b"[1,]".as_slice()).err(), Some(ReadError::BadJson { at: 3 }));
    /// assert_eq!(rt; JsonDoc::read(alloc, b"[1,\xff".as_slice()).err(), Some(ReadError::NotUtf8 { at: 3 }));
    /// ```
    ///
    /// # Errors
    ///
    /// [`ReadError::NotUtf8`] exactly where the bytes are no UTF-8, with the length of their longest front that is.
    /// [`ReadError::BadJson`] comes only where they are UTF-8 and denote no value. [`ReadError::NoMemory`] may come in
    /// its place and in that of a document, but only where some first bytes hold a whole number or string, a bracket or
    /// brace, or the first letter of a word.
    pub fn read(alloc: Global, bytes: &'a [u8]) -> Result<Self, ReadError>
        ensures ok { IfOk result (λ doc. IsReadText bytes.now (document_calls doc)) }
        ensures document { IfOk result (λ doc. IsDocument bytes.now doc) }
        ensures value { IfOk result (λ doc. Denotes bytes.now (value_in doc)) }
        ensures err { IfErr result (IsJsonReadError bytes.now) }
    {
        match from_utf8(bytes) {
            Ok(text) => JsonDoc::read_str(alloc, text),
            Err(error) => Err(ReadError::NotUtf8 {
                at: error.valid_up_to() as u64,
            }),
        }
    }

    /// Reads a text whole, as [`JsonDoc::read`] does, but doesn't look whether it is UTF-8, which it is.
    ///
    /// ```
    /// let doc = JsonDoc::read_str(alloc, "[1, 2]")?;
    /// assert_eq!(rt; doc.root().len(), Some(2));
    /// assert_eq!(rt; JsonDoc::read_str(alloc, "[1,]").err(), Some(ReadError::BadJson { at: 3 }));
    /// ```
    ///
    /// # Errors
    ///
    /// [`ReadError::BadJson`] comes only where the text denotes no value, and [`ReadError::NoMemory`] as in
    /// [`JsonDoc::read`]. No other comes.
    pub fn read_str(alloc: Global, text: &'a str) -> Result<Self, ReadError>
        ensures ok { IfOk result (λ doc. IsReadText text.now (document_calls doc)) }
        ensures document { IfOk result (λ doc. IsDocument text.now doc) }
        ensures value { IfOk result (λ doc. Denotes text.now (value_in doc)) }
        ensures err { IfErr result (IsTextReadError text.now) }
    {
        match read_nodes(alloc, text.as_bytes()) {
            Ok(nodes) => Ok(JsonDoc::of_nodes(text, nodes)),
            Err(error) => Err(error),
        }
    }

    /// The document whose nodes were read of a text.
    fn of_nodes(text: &'a str, nodes: Vec<Node>) -> Self
        requires document { IsDocument text.now (tokens_in text.now (map seen_node nodes.items)) }
        requires stand { AllByRecursion (StandsIn text.now) nodes.items }
        requires counted { AreCounted nodes.items }
        ensures ok { IsReadText text.now (document_calls result) }
        ensures document { IsDocument text.now result }
        ensures value { Denotes text.now (value_in result) }
    {
        JsonDoc { text, nodes }
    }

    /// The value that the text denotes.
    pub fn root(&self) -> JsonRef<'_>
        ensures { result ≡ value_in self.now }
    {
        JsonRef::new(self.text, self.nodes.as_slice())
    }

    /// The tokens of the text, in order.
    pub fn tokens(&self) -> JsonTokens<'_>
        ensures { result ≡ self.now }
    {
        JsonTokens::new(self.text, self.nodes.as_slice())
    }

    /// Writes the JSON of the value, without white space: what `stream_to_io_write` of `sval_json` writes of the document.
    ///
    /// It makes no calls. Numbers keep their digits, and `-0` becomes `0`. Strings have the escapes that they need.
    ///
    /// ```
    /// let doc = JsonDoc::read_str(alloc, "{\"a\" : [1, 1.50e+3, -0]}")?;
    /// let mut out = VecSink::new(alloc);
    /// doc.write_json(&mut out)?;
    /// assert_eq!(rt; out.as_slice(), b"{\"a\":[1,1.50e+3,0]}".as_slice());
    /// ```
    ///
    /// # Errors
    ///
    /// Those of the sink. It took a first part of the text then, and not all.
    pub fn write_json<K: Sink>(&self, out: &mut K) -> Result<(), SinkError>
        ensures tokens { WritesAll result (K.told out.old) (tokens_text true self.now) (K.told out.new) }
        ensures json { (input : List ℕ) (document : IsDocument input self.now) (json : Json)
            → json_of (tree_of document.value) ≡ Ok json
            → WritesAll result (K.told out.old) (compact json) (K.told out.new) }
    {
        write_nodes(self.text, self.nodes.as_slice(), out)
    }

    /// Writes the canonical script of the value, as `print_canon` of `sval_script` does of its captured calls: each string
    /// comes in one fragment.
    ///
    /// It makes no calls and takes no memory.
    ///
    /// ```
    /// let doc = JsonDoc::read_str(alloc, "[\"a\\n\"]")?;
    /// let mut out = VecSink::new(alloc);
    /// doc.write_script(&mut out)?;
    /// let script = "seq_begin -\nseq_value_begin\ntext_begin 2\ntext_fragment =610a\ntext_end\nseq_value_end\nseq_end\n";
    /// assert_eq!(rt; out.as_slice(), script.as_bytes());
    /// ```
    ///
    /// # Errors
    ///
    /// Those of the sink. It took a first part of the script then, and not all.
    pub fn write_script<K: Sink>(&self, out: &mut K) -> Result<(), SinkError>
        ensures { (input : List ℕ) (document : IsDocument input self.now)
            → WritesAll result (K.told out.old) (canon (tree_of document.value)) (K.told out.new) }
    {
        print_nodes(self.text, self.nodes.as_slice(), out)
    }
}

/// Reads the nodes of a text. Where a node may be kept it takes one byte at a time, and what comes between is passed over
/// at once.
fn read_nodes(alloc: Global, bytes: &[u8]) -> Result<Vec<Node>, ReadError>
    requires { IsUtf8 bytes.now }
    ensures ok { IfOk result (λ nodes. IsDocument bytes.now (tokens_in bytes.now (map seen_node nodes.items))) }
    ensures stand { IfOk result (λ nodes. AllByRecursion (StandsIn bytes.now) nodes.items) }
    ensures counted { IfOk result (λ nodes. AreCounted nodes.items) }
    ensures err { IfErr result (IsTextReadError bytes.now) }
{
    let mut reader = Reader::new(alloc);
    let mut at: usize = 0;
    while at < bytes.len() {
        match reader.step(bytes, at) {
            Ok(true) => at = reader.pass_over(bytes, at + 1),
            Ok(false) => return Err(ReadError::BadJson { at: at as u64 }),
            Err(cause) => return Err(ReadError::from(cause)),
        }
    }
    match reader.finish(bytes) {
        Ok(true) => Ok(reader.nodes.into_nodes()),
        Ok(false) => Err(ReadError::BadJson { at: at as u64 }),
        Err(cause) => Err(ReadError::from(cause)),
    }
}

impl<'v, 'a> Value<'v, Lent<'v>> for JsonDoc<'a> {
    ghost emission = { λ doc. makes (document_calls doc) };

    fn stream<S: Stream<Lent<'v>>>(&'v self, stream: &mut S) -> StreamResult {
        let text = self.text;
        let nodes = self.nodes.as_slice();
        if stream.skip_value() {
            return Ok(());
        }
        stream_nodes(text, nodes, stream)
    }
}

impl<'a> ValueRef<Lent<'a>> for JsonDoc<'a> {
    ghost ref_emission = { λ doc. makes (document_calls doc) };

    fn stream_ref<S: Stream<Lent<'a>>>(&self, stream: &mut S) -> StreamResult {
        stream_nodes(self.text, self.nodes.as_slice(), stream)
    }
}
