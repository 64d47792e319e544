//! What is kept of the bytes.

ghost use Rattle.std.specs.Prelude.{◌≡◌, ◌≤◌, ◌^◌, IfOk, OnErr};
ghost use Rattle.sval_cbor_read.specs.SeenDue.{begun_in};
ghost use Rattle.sval_cbor_read.specs.SeenNodes.{node_offset, item_node};

use std::alloc::AllocError;
use std::mem::size_of;
use sval_core::NoMemory;

/// The place of an item.
#[derive(Clone, Copy)]
pub(crate) enum Place {
    /// By itself.
    Alone,
    /// In an array.
    Item,
    /// In a map, as the key of a pair.
    Key,
    /// Behind the key.
    Value,
}

/// What begins at the place of a node.
#[derive(Clone, Copy)]
pub(crate) enum Kind {
    /// A whole item, but for a number under a tag.
    Item,
    /// The byte string of a number under the tag 2.
    Big,
    /// That of a number under the tag 3.
    NegativeBig,
    /// The begin of a string of indefinite length, or of any array or map.
    Begin,
    TextPiece,
    BinaryPiece,
    EndText,
    EndBinary,
    EndSeq,
    EndMap,
}

/// An item in its place, or the begin, a chunk or the end of one. A begin and an end have the place of their item.
///
/// The bytes are not kept: a node has its place in them, in 48 bits, and the bytes there are read again.
#[derive(Clone, Copy)]
pub(crate) struct Node {
    low: u32,
    high: u16,
    pub(crate) kind: Kind,
    pub(crate) place: Place,
}

/// In small numbers each byte is an item, and each item is kept as a node.
const _: () = prove!(size_of::<Node>() == 8);

impl Node {
    /// A node at a place of the bytes. It has no room for a place of 2^48 or more, which is answered as want of memory.
    #[inline(always)]
    pub(crate) fn new(kind: Kind, place: Place, at: usize) -> Result<Node, NoMemory>
        ensures ok { IfOk result (λ node. node ≡ item_node kind place at) }
        ensures too_far { OnErr result (2 ^ 48 ≤ at) }
    {
        if at >= 1 << 48 {
            return Err(NoMemory::from(AllocError));
        }
        Ok(Node {
            low: (at % (1 << 32)) as u32,
            high: (at / (1 << 32)) as u16,
            kind,
            place,
        })
    }

    /// Its place in the bytes.
    #[inline(always)]
    pub(crate) fn at(self) -> usize
        ensures { result ≡ node_offset self }
    {
        self.low as usize + self.high as usize * (1 << 32)
    }
}

/// Whether a node, if there is one, is the begin of an item or a chunk.
pub(crate) fn is_begun(node: Option<Node>) -> bool
    ensures { result ≡ begun_in node }
{
    match node {
        None => false,
        Some(node) => match node.kind {
            Kind::Item
            | Kind::Big
            | Kind::NegativeBig
            | Kind::Begin
            | Kind::TextPiece
            | Kind::BinaryPiece => true,
            Kind::EndText | Kind::EndBinary | Kind::EndSeq | Kind::EndMap => false,
        },
    }
}
