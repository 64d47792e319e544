//! The machine that reads items one by one.

ghost use Rattle.std.specs.Prelude.{◌≡◌, ◌≢◌, ◌≤◌, ℕ, List, [], ◌∷◌, ◌++◌, Some, IfOk, IfErr, length, slice_get};
ghost use Rattle.sval_cbor_read.specs.Steps.{StepsLead, MakesSomeCall, first_spot};
ghost use Rattle.sval_cbor_read.specs.HeadFronts.{so_many, head_front};
ghost use Rattle.sval_cbor_read.specs.SeenNodes.{item_node};
ghost use Rattle.sval_cbor_read.specs.SeenDue.{is_begun_behind};
ghost use Rattle.sval_cbor_read.specs.SeenItems.{IsNoTag};
ghost use Rattle.sval_cbor_read.specs.SeenFrames.{frame_of, TopFrameIs, around_frame, item_place_in};
ghost use Rattle.sval_cbor_read.specs.SeenReader.{spot_of, front_of, expected_after, opened_after, AddsItemNode, OpensItem, EndsItem, KeepsNode, BeginsPart, ReadsItemsOn, HasEnded};
ghost use Rattle.sval_cbor_read.specs.declared.node.Kind.TheVariants as kind;
ghost use Rattle.sval_cbor_read.specs.declared.stack.Frame.TheVariants as frame;
ghost use Rattle.sval_cbor_read.specs.declared.reader.Expected.TheVariants as expected;

mod pieces;

use crate::item::{Begun, Item, Medium, item_at};
use crate::node::{Kind, Node, Place, is_begun};
use crate::part::{NextPart, next_part};
use crate::stack::{Frame, Stack};
use crate::stop::item_stop;
use std::alloc::Global;
use std::mem::replace;
use sval_core::NoMemory;

/// What comes next.
#[derive(Clone, Copy)]
pub(crate) enum Expected {
    AnItem,
    /// The next part of what is open, or its end.
    APart,
    /// A chunk of a string, or the break.
    APiece(Medium),
    Nothing,
}

/// What was read so far.
#[derive(Drop)]
pub(crate) struct Reader {
    /// How many bytes were read.
    pub(crate) at: usize,
    pub(crate) expected: Expected,
    pub(crate) opened: Stack,
    pub(crate) nodes: Vec<Node>,
    alloc: Global,
}

/// These nodes and one more, where the vector is full. It is taken by value, so that the reader stays in registers.
#[cold]
#[inline(never)]
fn grown(mut nodes: Vec<Node>, node: Node) -> Result<Vec<Node>, NoMemory>
    ensures { IfOk result (λ all. all.items ≡ nodes.items ++ (node ∷ [])) }
{
    nodes.push(node)?;
    Ok(nodes)
}

impl Reader {
    /// A reader that has read nothing.
    #[inline(always)]
    pub(crate) fn new(alloc: Global) -> Self
        ensures starts { (bytes : List ℕ) → spot_of bytes result ≡ first_spot bytes }
        ensures front { (bytes : List ℕ) → front_of bytes result 0 0 ≡ head_front (so_many 1 ∷ []) 0 0 bytes }
        ensures at { result.at ≡ 0 }
        ensures opened { result.opened ≡ [] }
        ensures nodes { result.nodes.items ≡ [] }
    {
        Reader {
            at: 0,
            expected: Expected::AnItem,
            opened: Stack::new(alloc),
            nodes: Vec::new(alloc),
            alloc,
        }
    }

    /// The place of an item directly in what is open.
    #[inline(always)]
    fn place(&self) -> Place
        ensures { result ≡ item_place_in self.now.opened }
    {
        match self.opened.top() {
            None => Place::Alone,
            Some(Frame::Items(_)) => Place::Item,
            Some(Frame::Keys(_)) => Place::Key,
            Some(Frame::Values(_)) => Place::Value,
        }
    }

    /// Puts a node behind the others.
    #[inline(always)]
    fn push(&mut self, node: Node) -> Result<(), NoMemory>
        ensures nodes { IfOk result (λ done. self.new.nodes.items ≡ self.old.nodes.items ++ (node ∷ [])) }
        ensures opened { self.new.opened ≡ self.old.opened }
    {
        if self.nodes.len() == self.nodes.capacity() {
            let full = replace(&mut self.nodes, Vec::new(self.alloc));
            let _none = replace(&mut self.nodes, grown(full, node)?);
            return Ok(());
        }
        Ok(self.nodes.push(node)?)
    }

    /// Keeps a node.
    #[inline(always)]
    fn add(
        &mut self,
        kind: Kind,
        place: Place,
        from: usize,
        next: usize,
        expected: Expected,
    ) -> Result<(), NoMemory>
        ensures { IfOk result (λ done. AddsItemNode self.old (item_node kind place from) next expected self.new) }
    {
        let node = Node::new(kind, place, from)?;
        self.push(node)?;
        self.at = next;
        self.expected = expected;
        Ok(())
    }

    /// Expects what comes after an item.
    #[inline(always)]
    fn expect_next(&mut self)
        ensures expected { self.new.expected ≡ expected_after self.old.opened }
        ensures opened { self.new.opened ≡ opened_after self.old.opened }
        ensures at { self.new.at ≡ self.old.at }
        ensures nodes { self.new.nodes.items ≡ self.old.nodes.items }
    {
        match self.opened.top() {
            None => self.expected = Expected::Nothing,
            Some(Frame::Items(_)) => self.expected = Expected::APart,
            Some(Frame::Keys(left)) => {
                self.opened.change(Frame::Values(left));
                self.expected = Expected::AnItem;
            },
            Some(Frame::Values(left)) => {
                self.opened.change(Frame::Keys(left));
                self.expected = Expected::APart;
            },
        }
    }

    /// Keeps the last node of an item.
    #[inline(always)]
    fn end_item(
        &mut self,
        kind: Kind,
        place: Place,
        from: usize,
        next: usize,
    ) -> Result<(), NoMemory>
        ensures { IfOk result (λ done. EndsItem self.old.opened self.old (item_node kind place from) next self.new) }
    {
        match self.add(kind, place, from, next, Expected::Nothing) {
            Ok(()) => {
                self.expect_next();
                Ok(())
            },
            Err(error) => Err(error),
        }
    }

    /// Opens an array or a map, which begins here.
    #[inline(always)]
    fn open(&mut self, place: Place, next: usize, frame: Frame) -> Result<(), NoMemory>
        ensures { IfOk result (λ done. OpensItem self.old
            (item_node kind.Begin place self.old.at) (frame_of frame) next self.new) }
    {
        match self.add(Kind::Begin, place, self.at, next, Expected::APart) {
            Ok(()) => self.opened.push(frame),
            Err(error) => Err(error),
        }
    }

    /// Keeps what an item begins with.
    #[inline(always)]
    fn begin_item(&mut self, begun: Begun) -> Result<(), NoMemory>
        ensures keeps { IfOk result (λ done. KeepsNode self.old begun self.new) }
        ensures no_memory { IfErr result (λ error. IsNoTag begun.item) }
    {
        let place = self.place();
        let next = begun.next;
        match begun.item {
            Item::Whole => self.end_item(Kind::Item, place, self.at, next),
            Item::Big(from) => self.end_item(Kind::Big, place, from, next),
            Item::NegativeBig(from) => self.end_item(Kind::NegativeBig, place, from, next),
            Item::Container(frame) => self.open(place, next, frame),
            Item::Pieces(medium) => {
                self.add(Kind::Begin, place, self.at, next, Expected::APiece(medium))
            },
            Item::Tag => {
                self.at = next;
                Ok(())
            },
        }
    }

    /// Reads the begin of an item.
    #[inline(always)]
    fn item(&mut self, bytes: &[u8]) -> Result<bool, NoMemory>
        requires within { self.old.at ≤ length bytes.now }
        requires is { self.old.expected ≡ expected.AnItem }
        ensures goes { IfOk result (ReadsItemsOn bytes.now self.old self.new) }
        ensures no_memory { IfErr result (λ error. MakesSomeCall (spot_of bytes.now self.old)) }
    {
        match item_at(bytes, self.at) {
            None => {
                self.at = item_stop(bytes, self.at);
                Ok(false)
            },
            Some(begun) => match self.begin_item(begun) {
                Ok(()) => Ok(true),
                Err(error) => Err(error),
            },
        }
    }

    /// Begins the next part of the innermost array or map. `frame` is what is left of that behind the part.
    #[inline(always)]
    fn begin_part(&mut self, frame: Frame)
        ensures { BeginsPart self.old (frame_of frame) self.new }
    {
        self.opened.change(frame);
        self.expected = Expected::AnItem;
    }

    /// Ends the innermost array or map, with a node of this kind.
    #[inline(always)]
    fn end_parts(&mut self, end: Kind, next: usize) -> Result<(), NoMemory>
        ensures { IfOk result (λ done. EndsItem (around_frame self.old.opened) self.old
            (item_node end (item_place_in (around_frame self.old.opened)) self.old.at) next self.new) }
    {
        self.opened.pop();
        let place = self.place();
        self.end_item(end, place, self.at, next)
    }

    /// Begins the next item of an array, or ends the array.
    #[inline(always)]
    fn next_item(&mut self, left: Option<usize>, bytes: &[u8]) -> Result<bool, NoMemory>
        requires within { self.old.at ≤ length bytes.now }
        requires is { self.old.expected ≡ expected.APart }
        requires top { TopFrameIs (Some (frame.Items left)) self.old.opened }
        ensures goes { IfOk result (ReadsItemsOn bytes.now self.old self.new) }
        ensures no_memory { IfErr result (λ error. MakesSomeCall (spot_of bytes.now self.old)) }
    {
        match next_part(left, bytes, self.at) {
            NextPart::Nothing => Ok(false),
            NextPart::Another(left) => {
                self.begin_part(Frame::Items(left));
                Ok(true)
            },
            NextPart::End(next) => match self.end_parts(Kind::EndSeq, next) {
                Ok(()) => Ok(true),
                Err(error) => Err(error),
            },
        }
    }

    /// Begins the next pair of a map, or ends the map.
    #[inline(always)]
    fn next_pair(&mut self, left: Option<usize>, bytes: &[u8]) -> Result<bool, NoMemory>
        requires within { self.old.at ≤ length bytes.now }
        requires is { self.old.expected ≡ expected.APart }
        requires top { TopFrameIs (Some (frame.Keys left)) self.old.opened }
        ensures goes { IfOk result (ReadsItemsOn bytes.now self.old self.new) }
        ensures no_memory { IfErr result (λ error. MakesSomeCall (spot_of bytes.now self.old)) }
    {
        match next_part(left, bytes, self.at) {
            NextPart::Nothing => Ok(false),
            NextPart::Another(left) => {
                self.begin_part(Frame::Keys(left));
                Ok(true)
            },
            NextPart::End(next) => match self.end_parts(Kind::EndMap, next) {
                Ok(()) => Ok(true),
                Err(error) => Err(error),
            },
        }
    }

    /// Begins the next part of what is open, or ends it.
    #[inline(always)]
    fn part(&mut self, bytes: &[u8]) -> Result<bool, NoMemory>
        requires within { self.old.at ≤ length bytes.now }
        requires is { self.old.expected ≡ expected.APart }
        ensures goes { IfOk result (ReadsItemsOn bytes.now self.old self.new) }
        ensures no_memory { IfErr result (λ error. MakesSomeCall (spot_of bytes.now self.old)) }
    {
        match self.opened.top() {
            Some(Frame::Items(left)) => self.next_item(left, bytes),
            Some(Frame::Keys(left)) => self.next_pair(left, bytes),
            Some(Frame::Values(_left)) => Ok(false),
            None => Ok(false),
        }
    }

    /// Whether an item was read whole.
    #[inline(always)]
    pub(crate) fn has_ended(&self) -> bool
        ensures { HasEnded self.now.expected result }
    {
        match self.expected {
            Expected::Nothing => true,
            Expected::AnItem | Expected::APart | Expected::APiece(_) => false,
        }
    }

    /// The node at the index `kept`, if there is one.
    fn node_behind(&self, kept: usize) -> Option<Node>
        ensures { result ≡ slice_get self.now.nodes.items kept }
    {
        self.nodes.get(kept).copied()
    }

    /// Whether the node at the index `kept`, if there is one, is the begin of an item or a chunk.
    pub(crate) fn has_begun(&self, kept: usize) -> bool
        ensures { result ≡ is_begun_behind kept self.now.nodes.items }
    {
        is_begun(self.node_behind(kept))
    }

    /// Reads on. Whether it could: if it couldn't, the bytes are no item, and `at` is the place where they fail.
    #[inline(always)]
    pub(crate) fn step(&mut self, bytes: &[u8]) -> Result<bool, NoMemory>
        requires within { self.old.at ≤ length bytes.now }
        requires more { self.old.expected ≢ expected.Nothing }
        ensures goes { IfOk result (ReadsItemsOn bytes.now self.old self.new) }
        ensures no_memory { IfErr result (λ error. MakesSomeCall (spot_of bytes.now self.old)) }
    {
        match self.expected {
            Expected::AnItem => self.item(bytes),
            Expected::APart => self.part(bytes),
            Expected::APiece(medium) => self.piece(medium, bytes),
            Expected::Nothing => Ok(false),
        }
    }
}
