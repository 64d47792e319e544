//! The calls of nodes.

ghost use Rattle.std.specs.Prelude.{map};
ghost use Rattle.sval_core.specs.Law.{Emits};
ghost use Rattle.sval_core.specs.Values.{makes};
ghost use Rattle.sval_json_read.specs.Calls.{place_begins, place_ends, placed_token_calls};
ghost use Rattle.sval_json_read.specs.Nodes.{token_in, placed_in, streamed};
ghost use Rattle.sval_json_read.specs.NodeCalls.{begins_before, token_own_calls, ends_behind};
ghost use Rattle.sval_json_read.specs.SeenNodes.{node_place, seen_node, IsKeptOf, AreKeptOf};

use crate::node::{Node, Place};
use crate::number_calls::stream_number;
use crate::string_calls::{stream_key, stream_string};
use sval_core::{Lending, Lent, Result, Stream};

impl Place {
    /// Begins the part that holds a value in this place.
    fn begin<L: Lending, S: Stream<L>>(self, stream: &mut S) -> Result
        ensures { Emits S.law result
            (S.standing stream.old) (makes (place_begins (node_place self))) (S.standing stream.new) }
    {
        match self {
            Place::Alone => Ok(()),
            Place::Item => stream.seq_value_begin(),
            Place::Key => stream.map_key_begin(),
            Place::Value => stream.map_value_begin(),
        }
    }

    /// Ends the part that holds a value in this place.
    fn end<L: Lending, S: Stream<L>>(self, stream: &mut S) -> Result
        ensures { Emits S.law result
            (S.standing stream.old) (makes (place_ends (node_place self))) (S.standing stream.new) }
    {
        match self {
            Place::Alone => Ok(()),
            Place::Item => stream.seq_value_end(),
            Place::Key => stream.map_key_end(),
            Place::Value => stream.map_value_end(),
        }
    }
}

impl Node {
    /// Begins the part that holds this node, if the node is no end.
    fn begin<L: Lending, S: Stream<L>>(self, stream: &mut S) -> Result
        ensures { Emits S.law result (S.standing stream.old)
            (makes (begins_before (seen_node self).kept (seen_node self).place))
            (S.standing stream.new) }
    {
        match self {
            Node::EndArray(_) | Node::EndObject(_) => Ok(()),
            Node::Null(place)
            | Node::Bool(place, _)
            | Node::Number(place, _, _)
            | Node::Text(place, _, _)
            | Node::BeginArray(place, _)
            | Node::BeginObject(place, _) => place.begin(stream),
        }
    }

    /// Makes the node's own calls, from the text of the document.
    pub(crate) fn make<'v, S: Stream<Lent<'v>>>(self, text: &'v str, stream: &mut S) -> Result
        requires { IsKeptOf text.now self }
        ensures { Emits S.law result (S.standing stream.old)
            (makes (token_own_calls (token_in text.now (seen_node self).kept))) (S.standing stream.new) }
    {
        match self {
            Node::Null(_) => stream.null(),
            Node::Bool(_, value) => stream.bool(value),
            Node::Number(_, from, length) => {
                let from = from.get();
                stream_number(&text[from..from + length as usize], stream)
            },
            Node::Text(_, from, length) => {
                let from = from.get();
                stream_string(&text[from..from + length as usize], stream)
            },
            Node::BeginArray(..) => stream.seq_begin(None),
            Node::EndArray(_) => stream.seq_end(),
            Node::BeginObject(..) => stream.map_begin(None),
            Node::EndObject(_) => stream.map_end(),
        }
    }

    /// Ends the part that holds this node, if the node is no begin.
    fn end<L: Lending, S: Stream<L>>(self, stream: &mut S) -> Result
        ensures { Emits S.law result (S.standing stream.old)
            (makes (ends_behind (seen_node self).kept (seen_node self).place))
            (S.standing stream.new) }
    {
        match self {
            Node::BeginArray(..) | Node::BeginObject(..) => Ok(()),
            Node::Null(place)
            | Node::Bool(place, _)
            | Node::Number(place, _, _)
            | Node::Text(place, _, _)
            | Node::EndArray(place)
            | Node::EndObject(place) => place.end(stream),
        }
    }

    /// Makes the node's calls in three steps, from the text of the document.
    fn stream_parts<'v, S: Stream<Lent<'v>>>(self, text: &'v str, stream: &mut S) -> Result
        requires { IsKeptOf text.now self }
        ensures { Emits S.law result (S.standing stream.old)
            (makes (placed_token_calls (placed_in text.now (seen_node self)))) (S.standing stream.new) }
    {
        self.begin(stream)?;
        self.make(text, stream)?;
        self.end(stream)
    }

    /// Makes the node's calls, from the text of the document.
    pub(crate) fn stream<'v, S: Stream<Lent<'v>>>(self, text: &'v str, stream: &mut S) -> Result
        requires { IsKeptOf text.now self }
        ensures { Emits S.law result (S.standing stream.old)
            (makes (placed_token_calls (placed_in text.now (seen_node self)))) (S.standing stream.new) }
    {
        match self {
            Node::Text(Place::Key, from, length) => {
                let from = from.get();
                stream_key(&text[from..from + length as usize], stream)
            },
            _ => self.stream_parts(text, stream),
        }
    }
}

/// Makes the calls of nodes, from the text of the document.
pub(crate) fn stream_nodes<'v, S: Stream<Lent<'v>>>(
    text: &'v str,
    nodes: &[Node],
    stream: &mut S,
) -> Result
    requires { AreKeptOf text.now nodes.now }
    ensures { Emits S.law result (S.standing stream.old)
        (makes (streamed text.now (map seen_node nodes.now))) (S.standing stream.new) }
{
    for node in nodes {
        node.stream(text, stream)?;
    }
    Ok(())
}
