//! Words, numbers and strings.

ghost use Rattle.std.specs.Prelude.{◌≡◌, ◌+◌, ◌<◌, ◌≤◌, ◌^◌, [], IfOk, IfErr, OnErr, length, get_or, map, true, false};
ghost use Rattle.std.specs.List.{between};
ghost use Rattle.sval_json.specs.Digits.{is_number_byte};
ghost use Rattle.sval_json_read.specs.Reader as machine;
ghost use Rattle.sval_json_read.specs.Nodes.{tokens_in};
ghost use Rattle.sval_json_read.specs.SeenNodes.{seen_node};
ghost use Rattle.sval_json_read.specs.Offsets.{number_of};
ghost use Rattle.sval_json_read.specs.SeenReader.{seen_state, expected_of, GivesState, HasToken, EndsText, TakesByte, KeepsRead, WantsOnlyFor, IsReadTo};
ghost use Rattle.sval_json_read.specs.declared.reader.Expected.TheVariants.{Letter, InNumber, InString};

use super::{Expected, Reader};
use crate::node::{Node, Place};
use crate::number::{Phase, is_of_numbers, may_end, next_phase};
use crate::offset::Offset;
use crate::string::{Within, next_within};
use crate::word::Word;
use std::alloc::AllocError;
use sval_core::NoMemory;

impl Reader {
    /// Reads a letter of a word.
    pub(crate) fn letter(&mut self, word: Word, bytes: &[u8], at: usize) -> bool
        requires at_in { at < length bytes.now }
        requires reads { IsReadTo bytes.now at self.old }
        ensures gives { GivesState (machine.step_in (expected_of bytes.now self.old.from at (Letter word))
            (seen_state bytes.now at self.old) (get_or bytes.now at 0))
            (seen_state bytes.now (at + 1) self.new) result }
        ensures reads { IsReadTo bytes.now (at + 1) self.new }
    {
        match word.after(bytes[at]) {
            None => false,
            Some(None) => {
                self.expected = Expected::Next;
                true
            },
            Some(Some(left)) => {
                self.expected = Expected::Letter(left);
                true
            },
        }
    }

    /// How many bytes were read of a number or string. A node has no room for a length of 4 GiB or more, which is
    /// answered as want of memory.
    fn length(&self, at: usize) -> Result<u32, NoMemory>
        requires { self.now.from ≤ at }
        ensures ok { IfOk result (λ length. self.now.from + length ≡ at) }
        ensures too_long { OnErr result (self.now.from + 2 ^ 32 ≤ at) }
    {
        let length = at - self.from;
        if length > u32::MAX as usize {
            return Err(NoMemory::from(AllocError));
        }
        Ok(length as u32)
    }

    /// Where the number or string begins. A node has no room for a place of 256 TiB or more, which is answered as want
    /// of memory.
    fn offset(&self) -> Result<Offset, NoMemory>
        ensures ok { IfOk result (λ from. number_of from ≡ self.now.from) }
        ensures too_far { OnErr result (2 ^ 48 ≤ self.now.from) }
    {
        if self.from > Offset::MAX {
            return Err(NoMemory::from(AllocError));
        }
        Ok(Offset::new(self.from))
    }

    /// Reads one more byte of a number.
    #[tactic(auto, using(crate::proofs::KeptNodes::between_more))]
    fn digit(&mut self, phase: Phase, bytes: &[u8], at: usize) -> bool
        requires at_in { at < length bytes.now }
        requires reads { IsReadTo bytes.now at self.old }
        requires before { self.old.from ≤ at }
        requires is_of_numbers { is_number_byte (get_or bytes.now at 0) ≡ true }
        ensures gives { GivesState (machine.step_in (expected_of bytes.now self.old.from at (InNumber phase))
            (seen_state bytes.now at self.old) (get_or bytes.now at 0))
            (seen_state bytes.now (at + 1) self.new) result }
        ensures reads { IsReadTo bytes.now (at + 1) self.new }
    {
        match next_phase(phase, bytes[at]) {
            None => false,
            Some(next) => {
                self.expected = Expected::InNumber(next);
                true
            },
        }
    }

    /// Ends a number with the byte before.
    pub(crate) fn end_number(&mut self, bytes: &[u8], at: usize) -> Result<(), NoMemory>
        requires at_in { at ≤ length bytes.now }
        requires reads { IsReadTo bytes.now at self.old }
        ensures ends { IfOk result (λ done. seen_state bytes.now at self.new
            ≡ machine.number_is_ended (seen_state bytes.now at self.old) (between self.old.from at bytes.now)) }
        ensures reads { KeepsRead bytes.now at result self.new }
    {
        let length = self.length(at)?;
        let from = self.offset()?;
        let place = self.place();
        self.add(Node::Number(place, from, length), Expected::Next)
    }

    /// Ends a number, and reads the byte behind it.
    fn after_number(&mut self, phase: Phase, bytes: &[u8], at: usize) -> Result<bool, NoMemory>
        requires at_in { at < length bytes.now }
        requires reads { IsReadTo bytes.now at self.old }
        requires is { self.old.expected ≡ InNumber phase }
        requires is_of_no_number { is_number_byte (get_or bytes.now at 0) ≡ false }
        ensures gives { TakesByte (machine.step_in (expected_of bytes.now self.old.from at (InNumber phase)))
            bytes.now at self.old result self.new }
        ensures reads { KeepsRead bytes.now (at + 1) result self.new }
        ensures no_memory { WantsOnlyFor (machine.step_in (expected_of bytes.now self.old.from at (InNumber phase)))
            bytes.now at self.old result }
    {
        if !may_end(phase) {
            return Ok(false);
        }
        self.end_number(bytes, at)?;
        self.follows(bytes, at)
    }

    /// Reads more of a number, or what follows it.
    pub(crate) fn number(&mut self, phase: Phase, bytes: &[u8], at: usize) -> Result<bool, NoMemory>
        requires at_in { at < length bytes.now }
        requires reads { IsReadTo bytes.now at self.old }
        requires is { self.old.expected ≡ InNumber phase }
        ensures gives { TakesByte (machine.step_in (expected_of bytes.now self.old.from at (InNumber phase)))
            bytes.now at self.old result self.new }
        ensures reads { KeepsRead bytes.now (at + 1) result self.new }
        ensures no_memory { WantsOnlyFor (machine.step_in (expected_of bytes.now self.old.from at (InNumber phase)))
            bytes.now at self.old result }
    {
        if is_of_numbers(bytes[at]) {
            Ok(self.digit(phase, bytes, at))
        } else {
            self.after_number(phase, bytes, at)
        }
    }

    /// Ends a number with the last byte, where nothing is open. Whether it may end there.
    pub(crate) fn last_number(&mut self, phase: Phase, bytes: &[u8]) -> Result<bool, NoMemory>
        requires reads { IsReadTo bytes.now (length bytes.now) self.old }
        requires alone { self.old.opened ≡ [] }
        requires is { self.old.expected ≡ InNumber phase }
        ensures ends { IfOk result (EndsText (machine.tokens_at_end (seen_state bytes.now (length bytes.now) self.old))
            (tokens_in bytes.now (map seen_node self.new.nodes))) }
        ensures reads { KeepsRead bytes.now (length bytes.now) result self.new }
        ensures no_memory { IfErr result (λ error. HasToken (seen_state bytes.now (length bytes.now) self.old)) }
    {
        if !may_end(phase) {
            return Ok(false);
        }
        self.end_number(bytes, bytes.len())?;
        Ok(true)
    }

    /// Ends a string at its closing quote.
    fn end_string(&mut self, is_key: bool, bytes: &[u8], at: usize) -> Result<(), NoMemory>
        requires at_in { at < length bytes.now }
        requires reads { IsReadTo bytes.now at self.old }
        requires quote { get_or bytes.now at 0 ≡ 34 }
        ensures ends { IfOk result (λ done. seen_state bytes.now (at + 1) self.new
            ≡ machine.string_ends (seen_state bytes.now at self.old) is_key (between self.old.from at bytes.now)) }
        ensures reads { KeepsRead bytes.now (at + 1) result self.new }
    {
        let length = self.length(at)?;
        let from = self.offset()?;
        if is_key {
            return self.add(Node::Text(Place::Key, from, length), Expected::Colon);
        }
        let place = self.place();
        self.add(Node::Text(place, from, length), Expected::Next)
    }

    /// Reads more of a string, or its end.
    #[tactic(auto, using(crate::proofs::KeptNodes::between_more))]
    pub(crate) fn string(
        &mut self,
        is_key: bool,
        within: Within,
        bytes: &[u8],
        at: usize,
    ) -> Result<bool, NoMemory>
        requires at_in { at < length bytes.now }
        requires reads { IsReadTo bytes.now at self.old }
        requires before { self.old.from ≤ at }
        ensures gives { TakesByte
            (machine.step_in (expected_of bytes.now self.old.from at (InString is_key within)))
            bytes.now at self.old result self.new }
        ensures reads { KeepsRead bytes.now (at + 1) result self.new }
        ensures no_memory { WantsOnlyFor
            (machine.step_in (expected_of bytes.now self.old.from at (InString is_key within)))
            bytes.now at self.old result }
    {
        let byte = bytes[at];
        if within == Within::Plain && byte == b'"' {
            self.end_string(is_key, bytes, at)?;
            return Ok(true);
        }
        match next_within(within, byte) {
            None => Ok(false),
            Some(next) => {
                self.expected = Expected::InString(is_key, next);
                Ok(true)
            },
        }
    }
}
