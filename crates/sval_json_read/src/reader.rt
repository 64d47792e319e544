//! The machine that reads JSON byte by byte.

ghost use Rattle.std.specs.Prelude.{◌≡◌, ◌+◌, ◌<◌, ℕ, List, [], IfOk, IfErr, length, map};
ghost use Rattle.sval_json_read.specs.Reader as machine;
ghost use Rattle.sval_json_read.specs.Nodes.{tokens_in};
ghost use Rattle.sval_json_read.specs.SeenNodes.{node_place, seen_node, StandsIn};
ghost use Rattle.sval_json_read.specs.NodeCounts.{IsLeaf};
ghost use Rattle.sval_json_read.specs.SeenReader.{seen_state, HasToken, EndsText, AddsNode, TakesByte, KeepsRead, WantsOnlyFor, IsReadTo};

mod ahead;
mod begins;
mod container;
mod front;
mod lanes;
mod runs;
mod scalar;
pub(crate) mod waiting;

use crate::node::{Node, Place};
use crate::node_list::NodeList;
use crate::number::Phase;
use crate::stack::{Opened, Stack};
use crate::string::Within;
use crate::word::Word;
use std::alloc::Global;
use sval_core::NoMemory;

/// What comes next.
#[derive(Clone, Copy)]
pub(crate) enum Expected {
    AValue,
    /// A value or the end of an array.
    FirstItem,
    /// A key or the end of an object.
    FirstKey,
    NextKey,
    Colon,
    /// A comma or the end of what is open, or of the text.
    Next,
    Letter(Word),
    InNumber(Phase),
    /// In a key or in another string.
    InString(bool, Within),
}

/// What was read so far.
#[derive(Drop)]
pub(crate) struct Reader {
    pub(crate) expected: Expected,
    /// Where the number or string begins that is being read.
    pub(crate) from: usize,
    /// How many bytes of white space came the last time that several came at once.
    pub(crate) spaces: usize,
    pub(crate) opened: Stack,
    pub(crate) nodes: NodeList,
}

impl Reader {
    /// A reader that has read nothing.
    pub(crate) fn new(alloc: Global) -> Self
        ensures starts { (bytes : List ℕ) → seen_state bytes 0 result ≡ machine.reader_start }
        ensures from { result.from ≡ 0 }
        ensures nodes { result.nodes ≡ [] }
    {
        Reader {
            expected: Expected::AValue,
            from: 0,
            spaces: 0,
            opened: Stack::new(alloc),
            nodes: NodeList::new(alloc),
        }
    }

    /// Keeps a node that begins and ends nothing.
    fn add(&mut self, node: Node, expected: Expected) -> Result<(), NoMemory>
        requires { IsLeaf node }
        ensures { IfOk result (λ done. AddsNode self.old node expected self.new) }
    {
        self.nodes.push(node)?;
        self.expected = expected;
        Ok(())
    }

    /// The place of a value directly in what is open.
    fn place(&self) -> Place
        ensures { node_place result ≡ machine.place_in self.now.opened }
    {
        match self.opened.top() {
            None => Place::Alone,
            Some(Opened::Array) => Place::Item,
            Some(Opened::Object) => Place::Value,
        }
    }

    /// Reads one byte. Whether it was taken: if it wasn't, no text that denotes a value goes on with it.
    pub(crate) fn step(&mut self, bytes: &[u8], at: usize) -> Result<bool, NoMemory>
        requires at_in { at < length bytes.now }
        requires reads { IsReadTo bytes.now at self.old }
        ensures gives { TakesByte machine.reader_step bytes.now at self.old result self.new }
        ensures reads { KeepsRead bytes.now (at + 1) result self.new }
        ensures no_memory { WantsOnlyFor machine.reader_step bytes.now at self.old result }
    {
        match self.expected {
            Expected::AValue => self.value(bytes, at),
            Expected::FirstItem => self.first_item(bytes, at),
            Expected::FirstKey => self.first_key(bytes, at),
            Expected::NextKey => Ok(self.next_key(bytes, at)),
            Expected::Colon => Ok(self.colon(bytes, at)),
            Expected::Next => self.follows(bytes, at),
            Expected::Letter(word) => Ok(self.letter(word, bytes, at)),
            Expected::InNumber(phase) => self.number(phase, bytes, at),
            Expected::InString(is_key, within) => self.string(is_key, within, bytes, at),
        }
    }

    /// Whether all bytes were a text that denotes a value.
    pub(crate) fn finish(&mut self, bytes: &[u8]) -> Result<bool, NoMemory>
        requires { IsReadTo bytes.now (length bytes.now) self.old }
        ensures ends { IfOk result (EndsText (machine.tokens_at_end (seen_state bytes.now (length bytes.now) self.old))
            (tokens_in bytes.now (map seen_node self.new.nodes))) }
        ensures reads { KeepsRead bytes.now (length bytes.now) result self.new }
        ensures no_memory { IfErr result (λ error. HasToken (seen_state bytes.now (length bytes.now) self.old)) }
    {
        if self.opened.top().is_some() {
            return Ok(false);
        }
        match self.expected {
            Expected::Next => Ok(true),
            Expected::InNumber(phase) => self.last_number(phase, bytes),
            _ => Ok(false),
        }
    }
}
