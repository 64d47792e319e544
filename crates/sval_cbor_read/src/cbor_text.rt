//! Texts and byte strings of a document, chunk by chunk.

ghost use Rattle.std.specs.Prelude.{◌≡◌, ◌++◌, ◌∷◌, [], true, ◌<◌, ℕ, List, None, length, drop, option_map, vec_items, string_bytes, IfOk, IfSome};
ghost use Rattle.std.specs.List.{concat};
ghost use Rattle.std.specs.Str.{bytes_eq};
ghost use Rattle.sval_label.specs.Calls as call;
ghost use Rattle.sval_cbor_read.specs.CborLookups.{one_chunk};
ghost use Rattle.sval_cbor_read.specs.SeenNodes.{piece_calls, streamed_items, NodesStand};
ghost use Rattle.sval_cbor_read.specs.SeenFound.{texts_in, binaries_in, IsTextChunk, IsByteChunk};
ghost use Rattle.sval_cbor_read.specs.SeenChunks.{TakesFirstChunk};

use crate::head::read_head;
use crate::node::{Kind, Node};
use crate::node_calls::content_behind;
use crate::span::behind_first;
use std::alloc::{AllocError, Global};
use std::marker::Model;
use std::str::from_utf8_unchecked;

/// The chunks of a text that are left, seen as a list of them. A text of definite length is one chunk.
#[derive(Drop)]
pub struct CborText<'d> {
    whole: Option<&'d str>,
    bytes: &'d [u8],
    nodes: &'d [Node],
}

impl<'d> Model for CborText<'d> {
    ghost use Rattle.std.specs.Prelude.{ℕ, List, option_map};
    ghost use Rattle.sval_cbor_read.specs.SeenNodes.{streamed_items, NodesStand};
    ghost use Rattle.sval_cbor_read.specs.SeenFound.{texts_in, with_whole};

    ghost Value = { List (List ℕ) };

    ghost view = { λ here.
        with_whole (option_map (λ text. text.now) here.whole)
        (texts_in (streamed_items here.bytes.now here.nodes.now)) };

    ghost invariant = { λ here. NodesStand here.bytes.now here.nodes.now };
}

/// The text of the chunk at a place.
pub(crate) fn text_chunk_at<'d>(bytes: &'d [u8], at: usize) -> &'d str
    requires { 0 < length (piece_calls 3 (drop at bytes.now)) }
    ensures { piece_calls 3 (drop at bytes.now) ≡ call.TextFragment true result.now ∷ [] }
{
    match read_head(bytes, at) {
        None => "",
        Some(head) => unsafe { from_utf8_unchecked(content_behind(bytes, head)) },
    }
}

/// The content of the chunk of a byte string at a place.
pub(crate) fn byte_chunk_at<'d>(bytes: &'d [u8], at: usize) -> &'d [u8]
    requires { 0 < length (piece_calls 2 (drop at bytes.now)) }
    ensures { piece_calls 2 (drop at bytes.now) ≡ call.BinaryFragment true result.now ∷ [] }
{
    match read_head(bytes, at) {
        None => bytes,
        Some(head) => content_behind(bytes, head),
    }
}

/// The chunk of a text that some nodes begin with, if they do.
fn text_chunk<'d>(bytes: &'d [u8], nodes: &[Node]) -> Option<&'d str>
    requires { NodesStand bytes.now nodes.now }
    ensures chunk { IsTextChunk bytes.now nodes.now (option_map (λ text. text.now) result) }
    ensures some { IfSome result (λ text. 0 < length nodes.now) }
{
    if nodes.is_empty() {
        return None;
    }
    match nodes[0].kind {
        Kind::TextPiece => Some(text_chunk_at(bytes, nodes[0].at())),
        _ => None,
    }
}

/// The chunk of a byte string that some nodes begin with, if they do.
fn byte_chunk<'d>(bytes: &'d [u8], nodes: &[Node]) -> Option<&'d [u8]>
    requires { NodesStand bytes.now nodes.now }
    ensures chunk { IsByteChunk bytes.now nodes.now (option_map (λ content. content.now) result) }
    ensures some { IfSome result (λ content. 0 < length nodes.now) }
{
    if nodes.is_empty() {
        return None;
    }
    match nodes[0].kind {
        Kind::BinaryPiece => Some(byte_chunk_at(bytes, nodes[0].at())),
        _ => None,
    }
}

/// What follows some bytes at the beginning of others, where those begin with them.
fn behind<'b>(front: &[u8], bytes: &'b [u8]) -> Option<&'b [u8]>
    ensures found { IfSome result (λ more. bytes.now ≡ front.now ++ more.now) }
    ensures other { result ≡ None → (more : List ℕ) → bytes.now ≡ front.now ++ more → ⊥ }
{
    bytes.strip_prefix(front)
}

impl<'d> CborText<'d> {
    /// A text in one chunk.
    pub(crate) fn whole(bytes: &'d [u8], nodes: &'d [Node], text: &'d str) -> Self
        ensures { result ≡ text.now ∷ [] }
    {
        CborText {
            whole: Some(text),
            bytes,
            nodes: nodes.split_at(0).0,
        }
    }

    /// The chunks that these nodes of the bytes begin with, up to the end of the text.
    pub(crate) fn chunks(bytes: &'d [u8], nodes: &'d [Node]) -> Self
        requires { NodesStand bytes.now nodes.now }
        ensures { result ≡ texts_in (streamed_items bytes.now nodes.now) }
    {
        CborText {
            whole: None,
            bytes,
            nodes,
        }
    }

    /// A second view of these chunks.
    pub(crate) fn again(&self) -> CborText<'d>
        ensures { result ≡ self.now }
    {
        CborText {
            whole: self.whole,
            bytes: self.bytes,
            nodes: self.nodes,
        }
    }

    /// Takes the first chunk that is left.
    pub fn next(&mut self) -> Option<&'d str>
        ensures { TakesFirstChunk (option_map (λ text. text.now) result) self.old self.new }
    {
        match self.whole {
            Some(text) => {
                self.whole = None;
                Some(text)
            },
            None => match text_chunk(self.bytes, self.nodes) {
                None => None,
                Some(text) => {
                    self.nodes = behind_first(self.nodes);
                    Some(text)
                },
            },
        }
    }

    /// The chunk that is left, where there is one.
    pub(crate) fn only(self) -> Option<&'d str>
        ensures { option_map (λ text. text.now) result ≡ one_chunk self.entry }
    {
        let mut left = self;
        match left.next() {
            None => None,
            Some(text) => match left.next() {
                None => Some(text),
                Some(_more) => None,
            },
        }
    }

    /// Whether its chunks, joined, are this text. Takes no memory.
    pub fn is(&self, other: &str) -> bool
        ensures { result ≡ bytes_eq (concat self.now) other.now }
    {
        let mut left = self.again();
        let mut rest = other.as_bytes();
        while let Some(text) = left.next() {
            match behind(text.as_bytes(), rest) {
                Some(more) => rest = more,
                None => return false,
            }
        }
        rest.is_empty()
    }

    /// Its chunks, joined.
    ///
    /// # Errors
    ///
    /// [`AllocError`] where there is no memory for it.
    pub fn to_text(&self, alloc: Global) -> Result<String, AllocError>
        ensures { IfOk result (λ text. string_bytes text ≡ concat self.now) }
    {
        let mut joined = String::new(alloc);
        let mut left = self.again();
        while let Some(text) = left.next() {
            joined.push_str(text)?;
        }
        Ok(joined)
    }
}

/// The chunks of a byte string that are left, seen as a list of them. A byte string of definite length is one chunk.
#[derive(Drop)]
pub struct CborBytes<'d> {
    whole: Option<&'d [u8]>,
    bytes: &'d [u8],
    nodes: &'d [Node],
}

impl<'d> Model for CborBytes<'d> {
    ghost use Rattle.std.specs.Prelude.{ℕ, List, option_map};
    ghost use Rattle.sval_cbor_read.specs.SeenNodes.{streamed_items, NodesStand};
    ghost use Rattle.sval_cbor_read.specs.SeenFound.{binaries_in, with_whole};

    ghost Value = { List (List ℕ) };

    ghost view = { λ here.
        with_whole (option_map (λ content. content.now) here.whole)
        (binaries_in (streamed_items here.bytes.now here.nodes.now)) };

    ghost invariant = { λ here. NodesStand here.bytes.now here.nodes.now };
}

impl<'d> CborBytes<'d> {
    /// A byte string in one chunk.
    pub(crate) fn whole(bytes: &'d [u8], nodes: &'d [Node], content: &'d [u8]) -> Self
        ensures { result ≡ content.now ∷ [] }
    {
        CborBytes {
            whole: Some(content),
            bytes,
            nodes: nodes.split_at(0).0,
        }
    }

    /// The chunks that these nodes of the bytes begin with, up to the end of the byte string.
    pub(crate) fn chunks(bytes: &'d [u8], nodes: &'d [Node]) -> Self
        requires { NodesStand bytes.now nodes.now }
        ensures { result ≡ binaries_in (streamed_items bytes.now nodes.now) }
    {
        CborBytes {
            whole: None,
            bytes,
            nodes,
        }
    }

    /// Takes the first chunk that is left.
    pub fn next(&mut self) -> Option<&'d [u8]>
        ensures { TakesFirstChunk (option_map (λ content. content.now) result) self.old self.new }
    {
        match self.whole {
            Some(content) => {
                self.whole = None;
                Some(content)
            },
            None => match byte_chunk(self.bytes, self.nodes) {
                None => None,
                Some(content) => {
                    self.nodes = behind_first(self.nodes);
                    Some(content)
                },
            },
        }
    }

    /// The chunk that is left, where there is one.
    pub(crate) fn only(self) -> Option<&'d [u8]>
        ensures { option_map (λ content. content.now) result ≡ one_chunk self.entry }
    {
        let mut left = self;
        match left.next() {
            None => None,
            Some(content) => match left.next() {
                None => Some(content),
                Some(_more) => None,
            },
        }
    }
}
