//! How many nodes an item has.

ghost use Rattle.std.specs.Prelude.{◌≡◌, ◌+◌, ◌<◌, ◌≤◌, ◌^◌, None, length, drop, IfSome};
ghost use Rattle.sval_cbor_read.specs.NodeSpans.{is_first, cbor_depth_behind, cbor_span, BeginsItem, IsBehindItem};

use crate::node::{Kind, Node};

/// The number of strings, arrays and maps that are open behind a node. `depth` is the number before it.
pub(crate) fn depth_behind(kind: Kind, depth: usize) -> usize
    requires { depth + 1 < 2 ^ 64 }
    ensures { result ≡ cbor_depth_behind kind depth }
{
    match kind {
        Kind::Begin => depth + 1,
        Kind::EndText | Kind::EndBinary | Kind::EndSeq | Kind::EndMap => depth.saturating_sub(1),
        _ => depth,
    }
}

/// How many nodes the item has that these begin with.
#[tactic(auto, using(crate::proofs::NodeStreams::here))]
fn item_len(nodes: &[Node]) -> usize
    ensures len { result ≡ cbor_span 0 nodes.now }
    ensures within { result ≤ length nodes.now }
{
    let mut depth = 0;
    let mut at = 0;
    while at < nodes.len() {
        depth = depth_behind(nodes[at].kind, depth);
        at += 1;
        if depth == 0 {
            return at;
        }
    }
    at
}

/// Whether a node is the first of an item.
fn is_first(kind: Kind) -> bool
    ensures { result ≡ is_first kind }
{
    match kind {
        Kind::Item | Kind::Big | Kind::NegativeBig | Kind::Begin => true,
        _ => false,
    }
}

/// The nodes behind the first item, if an item begins here.
pub(crate) fn behind_item(nodes: &[Node]) -> Option<&[Node]>
    ensures found { IfSome result (λ behind. IsBehindItem nodes.now behind.now) }
    ensures nothing { result ≡ None → BeginsItem nodes.now → ⊥ }
{
    if nodes.is_empty() {
        return None;
    }
    if !is_first(nodes[0].kind) {
        return None;
    }
    Some(nodes.split_at(item_len(nodes)).1)
}

/// The nodes behind the first.
pub(crate) fn behind_first(nodes: &[Node]) -> &[Node]
    requires { 0 < length nodes.now }
    ensures { result.now ≡ drop 1 nodes.now }
{
    nodes.split_at(1).1
}
