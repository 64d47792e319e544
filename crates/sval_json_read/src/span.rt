//! How many nodes a value has.

ghost use Rattle.std.specs.Prelude.{◌≡◌, map};
ghost use Rattle.sval_json_read.specs.NodeCounts.{AreCounted};
ghost use Rattle.sval_json_read.specs.NodeSpans.{span};
ghost use Rattle.sval_json_read.specs.SeenNodes.{seen_node};

use crate::node::Node;

/// How many nodes the value has that these begin with. The begin of an array or object tells it.
pub(crate) fn value_len(nodes: &[Node]) -> usize
    requires { AreCounted nodes.now }
    ensures { result ≡ span 0 (map seen_node nodes.now) }
{
    match nodes.first().copied() {
        None => 0,
        Some(Node::BeginArray(_, count) | Node::BeginObject(_, count)) => {
            count.get().min(nodes.len())
        },
        Some(_) => 1,
    }
}
