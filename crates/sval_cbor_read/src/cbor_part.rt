//! An item of a document, as a value that any stream takes.

ghost use Rattle.std.specs.Prelude.{◌≡◌};
ghost use Rattle.sval_core.specs.Law.{Emits};
ghost use Rattle.sval_core.specs.Values.{makes};
ghost use Rattle.sval_cbor_read.specs.CallSpans.{item_by_itself, until_closed};
ghost use Rattle.sval_cbor_read.specs.SeenFound.{AreOfItem};
ghost use Rattle.sval_cbor_read.specs.SeenNodes.{streamed_items, NodesStand};

use crate::node::{Kind, Node};
use crate::span::{behind_first, depth_behind};
use std::marker::Model;
use sval_core::{Lent, Result as StreamResult, Stream, Value};
use sval_ref::ValueRef;

/// An item that a document holds, seen as the calls that it makes by itself, with no array and no map around it.
///
/// It is a value, which makes these calls, lends its texts and byte strings from the bytes and never refuses. It takes
/// no memory for that. [`CborRef::part`](crate::CborRef::part) gives it.
///
/// ```
/// let doc = CborDoc::read(alloc, b"\x82\x01\x9f\x02\x03\xff".as_slice())?;
/// if let Some(item) = doc.root().item(1) {
///     assert_eq!(rt; stream_to_vec(alloc, &item.part())?.as_slice(), b"[2,3]".as_slice());
/// }
/// ```
#[derive(Drop)]
pub struct CborPart<'d> {
    bytes: &'d [u8],
    nodes: &'d [Node],
}

impl<'d> Model for CborPart<'d> {
    ghost use Rattle.std.specs.Prelude.{List};
    ghost use Rattle.sval_label.specs.Calls.{Call};
    ghost use Rattle.sval_cbor_read.specs.CallSpans.{item_by_itself};
    ghost use Rattle.sval_cbor_read.specs.SeenFound.{AreOfItem};
    ghost use Rattle.sval_cbor_read.specs.SeenNodes.{streamed_items};

    ghost Value = { List Call };

    ghost view = { λ part. item_by_itself (streamed_items part.bytes.now part.nodes.now) };

    ghost invariant = { λ part. AreOfItem part.bytes.now part.nodes.now };
}

impl<'d> CborPart<'d> {
    /// The item that these nodes of the bytes begin with, by itself.
    pub(crate) fn new(bytes: &'d [u8], nodes: &'d [Node]) -> Self
        requires { AreOfItem bytes.now nodes.now }
        ensures { result ≡ item_by_itself (streamed_items bytes.now nodes.now) }
    {
        CborPart { bytes, nodes }
    }
}

/// Makes the calls behind the begin of a string, an array or a map, up to its end.
fn stream_to_end<'v, S: Stream<Lent<'v>>>(
    bytes: &'v [u8],
    nodes: &[Node],
    stream: &mut S,
) -> StreamResult
    requires { NodesStand bytes.now nodes.now }
    ensures { Emits S.law result (S.standing stream.old)
        (makes (until_closed 1 (streamed_items bytes.now nodes.now))) (S.standing stream.new) }
{
    let mut depth = 1;
    for node in nodes {
        depth = depth_behind(node.kind, depth);
        if depth == 0 {
            return node.make(bytes, stream);
        }
        node.stream(bytes, stream)?;
    }
    Ok(())
}

/// Makes the calls of the item that these nodes begin with, by itself, from the bytes of the document.
fn stream_by_itself<'v, S: Stream<Lent<'v>>>(
    bytes: &'v [u8],
    nodes: &[Node],
    stream: &mut S,
) -> StreamResult
    requires { AreOfItem bytes.now nodes.now }
    ensures { Emits S.law result (S.standing stream.old)
        (makes (item_by_itself (streamed_items bytes.now nodes.now))) (S.standing stream.new) }
{
    nodes[0].make(bytes, stream)?;
    match nodes[0].kind {
        Kind::Begin => stream_to_end(bytes, behind_first(nodes), stream),
        _ => Ok(()),
    }
}

impl<'v, 'd> Value<'v, Lent<'v>> for CborPart<'d> {
    ghost emission = { makes };

    fn stream<S: Stream<Lent<'v>>>(&'v self, stream: &mut S) -> StreamResult {
        let bytes = self.bytes;
        let nodes = self.nodes;
        if stream.skip_value() {
            return Ok(());
        }
        stream_by_itself(bytes, nodes, stream)
    }
}

impl<'d> ValueRef<Lent<'d>> for CborPart<'d> {
    ghost ref_emission = { makes };

    fn stream_ref<S: Stream<Lent<'d>>>(&self, stream: &mut S) -> StreamResult {
        stream_by_itself(self.bytes, self.nodes, stream)
    }
}
