//! A value of a document, as a value that any stream takes.

ghost use Rattle.std.specs.Prelude.{◌≡◌, map};
ghost use Rattle.sval_core.specs.Law.{Emits};
ghost use Rattle.sval_core.specs.Values.{makes};
ghost use Rattle.sval_json_read.specs.Calls.{document_calls};
ghost use Rattle.sval_json_read.specs.Nodes.{tokens_in};
ghost use Rattle.sval_json_read.specs.Parts.{by_itself};
ghost use Rattle.sval_json_read.specs.SeenNodes.{seen_node};
ghost use Rattle.sval_json_read.specs.ValueNodes.{AreOfValue};

use crate::json_ref::between_ends;
use crate::node::Node;
use crate::node_calls::stream_nodes;
use std::marker::Model;
use sval_core::{Lent, Result as StreamResult, Stream, Value};
use sval_ref::ValueRef;

/// A value that a document holds, seen as the tokens that it has by itself, with no array and no object around it.
///
/// It is a value, which makes their calls, lends its texts from the bytes and never refuses. It takes no memory for
/// that. [`JsonRef::part`](crate::JsonRef::part) gives it.
#[derive(Drop)]
pub struct JsonPart<'d> {
    text: &'d str,
    nodes: &'d [Node],
}

impl<'d> Model for JsonPart<'d> {
    ghost use Rattle.std.specs.Prelude.{List, map};
    ghost use Rattle.sval_json_read.specs.Nodes.{tokens_in};
    ghost use Rattle.sval_json_read.specs.Parts.{by_itself};
    ghost use Rattle.sval_json_read.specs.SeenNodes.{seen_node};
    ghost use Rattle.sval_json_read.specs.Tokens.{Placed};
    ghost use Rattle.sval_json_read.specs.ValueNodes.{AreOfValue};

    ghost Value = { List Placed };

    ghost view = { λ part. by_itself (tokens_in part.text.now (map seen_node part.nodes.now)) };

    ghost invariant = { λ part. AreOfValue part.text.now part.nodes.now };
}

impl<'d> JsonPart<'d> {
    /// The value that these nodes are of, by itself.
    pub(crate) fn new(text: &'d str, nodes: &'d [Node]) -> Self
        requires { AreOfValue text.now nodes.now }
        ensures { result ≡ by_itself (tokens_in text.now (map seen_node nodes.now)) }
    {
        JsonPart { text, nodes }
    }
}

/// Makes the calls of the value that these nodes are of, by itself, from the text of the document.
fn stream_alone<'v, S: Stream<Lent<'v>>>(
    text: &'v str,
    nodes: &[Node],
    stream: &mut S,
) -> StreamResult
    requires { AreOfValue text.now nodes.now }
    ensures { Emits S.law result (S.standing stream.old)
        (makes (document_calls (by_itself (tokens_in text.now (map seen_node nodes.now)))))
        (S.standing stream.new) }
{
    match nodes[0] {
        Node::BeginArray(..) => {
            stream.seq_begin(None)?;
            stream_nodes(text, between_ends(nodes), stream)?;
            stream.seq_end()
        },
        Node::BeginObject(..) => {
            stream.map_begin(None)?;
            stream_nodes(text, between_ends(nodes), stream)?;
            stream.map_end()
        },
        node => node.make(text, stream),
    }
}

impl<'v, 'd> Value<'v, Lent<'v>> for JsonPart<'d> {
    ghost emission = { λ part. makes (document_calls part) };

    fn stream<S: Stream<Lent<'v>>>(&'v self, stream: &mut S) -> StreamResult {
        let text = self.text;
        let nodes = self.nodes;
        if stream.skip_value() {
            return Ok(());
        }
        stream_alone(text, nodes, stream)
    }
}

impl<'d> ValueRef<Lent<'d>> for JsonPart<'d> {
    ghost ref_emission = { λ part. makes (document_calls part) };

    fn stream_ref<S: Stream<Lent<'d>>>(&self, stream: &mut S) -> StreamResult {
        stream_alone(self.text, self.nodes, stream)
    }
}
