//! The nodes of a text that is being read.

ghost use Rattle.std.specs.Prelude.{◌≡◌, ◌<◌, ◌-◌, ◌^◌, ◌++◌, ◌∷◌, ℕ, List, [], if◌then◌else◌, is_ok, length, get_or, slice_set, map, IfOk};
ghost use Rattle.std.specs.List.{AllByRecursion};
ghost use Rattle.sval_json_read.specs.NodeCounts.{AreCounted, IsLeaf, begin_of, end_of, count_in, with_count};
ghost use Rattle.sval_json_read.specs.SeenNodes.{seen_node, StandsIn};
ghost use Rattle.sval_json_read.specs.declared.node.Node.TheVariants as node;
ghost use Rattle.sval_json_read.specs.declared.node.Place.TheVariants as place;

use crate::node::{Node, Place};
use crate::offset::Offset;
use crate::stack::Opened;
use std::alloc::{AllocError, Global};
use std::marker::Model;
use sval_core::NoMemory;

/// The nodes so far, seen without what their begins count.
///
/// A begin counts its nodes as soon as its end is kept. Until then it holds what `innermost` was before it, so that no
/// stack of the begins is needed.
#[derive(Drop)]
pub(crate) struct NodeList {
    nodes: Vec<Node>,
    /// The number of nodes up to the innermost begin without an end, that one among them, or 0 where there is none.
    innermost: usize,
}

impl Model for NodeList {
    ghost use Rattle.std.specs.Prelude.{List, map};
    ghost use Rattle.sval_json_read.specs.declared.node.Node.{Node};
    ghost use Rattle.sval_json_read.specs.NodeCounts.{uncounted, IsFewChain};

    ghost Value = { List Node };

    ghost view = { λ list. map uncounted list.nodes.items };

    ghost invariant = { λ list. IsFewChain list.nodes.items list.innermost };
}

impl NodeList {
    /// No nodes, which take no memory yet.
    pub(crate) fn new(alloc: Global) -> Self
        ensures { result ≡ [] }
    {
        NodeList {
            nodes: Vec::new(alloc),
            innermost: 0,
        }
    }

    /// Keeps a node that begins and ends nothing.
    pub(crate) fn push(&mut self, node: Node) -> Result<(), NoMemory>
        requires { IsLeaf node }
        ensures { self.new ≡ (if is_ok result then self.old ++ (node ∷ []) else self.old) }
    {
        keep(&mut self.nodes, node)?;
        Ok(())
    }

    /// Keeps the begin of an array or object.
    pub(crate) fn begin(&mut self, container: Opened, place: Place) -> Result<(), NoMemory>
        ensures { self.new ≡ (if is_ok result then self.old ++ (begin_of container place 0 ∷ []) else self.old) }
    {
        keep(&mut self.nodes, begin_of(container, place, self.innermost))?;
        self.innermost = self.nodes.len();
        Ok(())
    }

    /// Keeps the end of an array or object. The innermost begin without an end counts its nodes.
    pub(crate) fn end(&mut self, container: Opened, place: Place) -> Result<(), NoMemory>
        ensures { self.new ≡ (if is_ok result then self.old ++ (end_of container place ∷ []) else self.old) }
    {
        keep(&mut self.nodes, end_of(container, place))?;
        if self.innermost > 0 {
            self.innermost = count_from(&mut self.nodes, self.innermost - 1);
        }
        Ok(())
    }

    /// The nodes. Each begin counts its nodes, and all behind it where it has no end.
    pub(crate) fn into_nodes(self) -> Vec<Node>
        ensures seen { map seen_node result.items ≡ map seen_node self }
        ensures stand { (bytes : List ℕ) → AllByRecursion (StandsIn bytes) self
            → AllByRecursion (StandsIn bytes) result.items }
        ensures counted { AreCounted result.items }
    {
        let mut nodes = self.nodes;
        let mut innermost = self.innermost;
        while innermost > 0 {
            innermost = count_from(&mut nodes, innermost - 1);
        }
        nodes
    }
}

/// Keeps a node more. A begin has no room for a count of 2^48 or more, which is answered as want of memory.
fn keep(nodes: &mut Vec<Node>, node: Node) -> Result<(), NoMemory>
    ensures kept { nodes.new.items ≡ (if is_ok result then nodes.old.items ++ (node ∷ []) else nodes.old.items) }
    ensures few { IfOk result (λ done. length nodes.new.items < 2 ^ 48) }
{
    if nodes.len() >= Offset::MAX {
        return Err(NoMemory::from(AllocError));
    }
    Ok(nodes.push(node)?)
}

/// The begin of an array or object, with what it holds.
fn begin_of(container: Opened, place: Place, held: usize) -> Node
    requires { held < 2 ^ 48 }
    ensures { result ≡ begin_of container place held }
{
    let held = Offset::new(held);
    match container {
        Opened::Array => Node::BeginArray(place, held),
        Opened::Object => Node::BeginObject(place, held),
    }
}

/// Its end.
fn end_of(container: Opened, place: Place) -> Node
    ensures { result ≡ end_of container place }
{
    match container {
        Opened::Array => Node::EndArray(place),
        Opened::Object => Node::EndObject(place),
    }
}

/// Has the begin at this place count the nodes from it on, and gives what it held before.
fn count_from(nodes: &mut Vec<Node>, begin: usize) -> usize
    requires begin { begin < length nodes.old.items }
    requires few { length nodes.old.items < 2 ^ 48 }
    ensures counts { nodes.new.items ≡ slice_set nodes.old.items begin
        (with_count (length nodes.old.items - begin) (get_or nodes.old.items begin (node.Null place.Alone))) }
    ensures held { result ≡ count_in (get_or nodes.old.items begin (node.Null place.Alone)) }
    ensures as_many { length nodes.new.items ≡ length nodes.old.items }
{
    let count = Offset::new(nodes.len() - begin);
    match nodes[begin] {
        Node::BeginArray(place, held) => {
            nodes[begin] = Node::BeginArray(place, count);
            held.get()
        },
        Node::BeginObject(place, held) => {
            nodes[begin] = Node::BeginObject(place, count);
            held.get()
        },
        _ => 0,
    }
}
