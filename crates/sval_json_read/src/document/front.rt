//! The first value of some bytes.

ghost use Rattle.std.specs.Prelude.{◌≡◌, ◌≤◌, IfOk, IfErr, IsUtf8, length, map, take};
ghost use Rattle.std.specs.List.{AllByRecursion};
ghost use Rattle.sval_json.specs.Grammar.{Denotes};
ghost use Rattle.sval_json_read.specs.Calls.{document_calls};
ghost use Rattle.sval_json_read.specs.Documents.{IsDocument};
ghost use Rattle.sval_json_read.specs.JsonFronts.{EndsFront, IsTextFrontError, IsJsonFrontError};
ghost use Rattle.sval_json_read.specs.Nodes.{tokens_in};
ghost use Rattle.sval_json_read.specs.NodeCounts.{AreCounted};
ghost use Rattle.sval_json_read.specs.ReadErrors.{IsReadText};
ghost use Rattle.sval_json_read.specs.SeenNodes.{seen_node, StandsIn};
ghost use Rattle.sval_json_read.specs.SeenValues.{value_in};

use super::{JsonDoc, ReadError};
use crate::node::Node;
use crate::reader::Reader;
use std::alloc::Global;

impl<'a> JsonDoc<'a> {
    /// Reads the first value of a text, and tells how many bytes it takes, with the white space before it. What follows
    /// it isn't read, so values that follow one another are read one by one.
    ///
    /// A number takes each byte that it can go on with, as `12` of `12 3`; `12.x` is none. So no text of JSON goes on with
    /// the byte behind the value, unless that is white space.
    ///
    /// ```
    /// let text = " 12 [3]{}";
    /// let (first, used) = JsonDoc::read_front_str(alloc, text)?;
    /// assert_eq!(rt; (first.root().as_i64(), used), (Some(12), 3));
    /// assert_eq!(rt; JsonDoc::read_front_str(alloc, "[1,]").err(), Some(ReadError::BadJson { at: 3 }));
    /// ```
    ///
    /// # Errors
    ///
    /// [`ReadError::BadJson`] comes only where no value begins the text, as where it has nothing but white space.
    /// `at` is as in [`JsonDoc::read`]. [`ReadError::NoMemory`] may come as there. No other comes.
    pub fn read_front_str(alloc: Global, text: &'a str) -> Result<(Self, usize), ReadError>
        ensures ok { IfOk result (λ front. IsReadText (take front.1 text.now) (document_calls front.0)) }
        ensures value { IfOk result (λ front. Denotes (take front.1 text.now) (value_in front.0)) }
        ensures ends { IfOk result (λ front. EndsFront text.now front.1) }
        ensures err { IfErr result (IsTextFrontError text.now) }
    {
        match front_nodes(alloc, text.as_bytes()) {
            Ok((nodes, used)) => Ok((JsonDoc { text, nodes }, used)),
            Err(error) => Err(error),
        }
    }
}

/// Reads the first value of a text, byte by byte, as [`read_nodes`](super::read_nodes) does: its nodes, and how many
/// bytes it takes.
fn front_nodes(alloc: Global, bytes: &[u8]) -> Result<(Vec<Node>, usize), ReadError>
    requires { IsUtf8 bytes.now }
    ensures ok { IfOk result (λ front. IsDocument (take front.1 bytes.now)
        (tokens_in bytes.now (map seen_node front.0.items))) }
    ensures stand { IfOk result (λ front. AllByRecursion (StandsIn bytes.now) front.0.items) }
    ensures counted { IfOk result (λ front. AreCounted front.0.items) }
    ensures ends { IfOk result (λ front. EndsFront bytes.now front.1) }
    ensures err { IfErr result (IsTextFrontError bytes.now) }
{
    let mut reader = Reader::new(alloc);
    let mut at: usize = 0;
    while !reader.front_ends(bytes, at) {
        if at == bytes.len() {
            return Err(ReadError::BadJson { at: at as u64 });
        }
        match reader.step(bytes, at) {
            Ok(true) => at += 1 + reader.front_run(bytes, at + 1),
            Ok(false) => return Err(ReadError::BadJson { at: at as u64 }),
            Err(cause) => return Err(ReadError::from(cause)),
        }
    }
    match reader.end_front(bytes, at) {
        Ok(()) => Ok((reader.nodes.into_nodes(), at)),
        Err(cause) => Err(ReadError::from(cause)),
    }
}
