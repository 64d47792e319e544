//! Where the first value of some bytes ends.

ghost use Rattle.std.specs.Prelude.{◌≡◌, ◌+◌, ◌≤◌, true, Some, IfOk, IfErr, IsTrue, length, take, drop, map};
ghost use Rattle.sval_json_read.specs.Nodes.{tokens_in};
ghost use Rattle.sval_json_read.specs.Reader as machine;
ghost use Rattle.sval_json_read.specs.FrontEnds.{number_goes_on, front_ends, is_past};
ghost use Rattle.sval_json_read.specs.SeenNodes.{seen_node};
ghost use Rattle.sval_json_read.specs.SeenReader.{seen_state, phase_of, expected_of, HasToken, KeepsRead, IsReadTo};

use super::{Expected, Reader};
use crate::number::{Phase, may_end, next_phase};
use sval_core::NoMemory;

impl Reader {
    /// Whether the first value ends before this place, where nothing is open. A number ends where the next byte isn't
    /// one more of it, or where the bytes end.
    pub(crate) fn front_ends(&self, bytes: &[u8], at: usize) -> bool
        requires { at ≤ length bytes.now }
        ensures { result ≡ front_ends self.now.opened
            (expected_of bytes.now self.now.from at self.now.expected) bytes.now at }
    {
        if self.opened.top().is_some() {
            return false;
        }
        match self.expected {
            Expected::Next => true,
            Expected::InNumber(phase) => may_end(phase) && !number_goes_on(phase, bytes, at),
            _ => false,
        }
    }

    /// Keeps the number that ends before this place, if the first value is one.
    pub(crate) fn end_front(&mut self, bytes: &[u8], at: usize) -> Result<(), NoMemory>
        requires at_in { at ≤ length bytes.now }
        requires reads { IsReadTo bytes.now at self.old }
        requires ends { front_ends self.old.opened
            (expected_of bytes.now self.old.from at self.old.expected) bytes.now at ≡ true }
        ensures ends { IfOk result (λ done. machine.tokens_at_end (seen_state bytes.now at self.old)
            ≡ Some (tokens_in bytes.now (map seen_node self.new.nodes))) }
        ensures reads { KeepsRead bytes.now at result self.new }
        ensures no_memory { IfErr result (λ error. HasToken (seen_state bytes.now at self.old)) }
    {
        if let Expected::InNumber(_) = self.expected {
            return self.end_number(bytes, at);
        }
        Ok(())
    }

    /// How many bytes are passed over at once, as by [`Reader::plain_run`], but that none are behind the first value.
    pub(crate) fn front_run(&self, bytes: &[u8], at: usize) -> usize
        requires at_in { at ≤ length bytes.now }
        requires before { self.now.from ≤ at }
        ensures within { at + result ≤ length bytes.now }
        ensures passes { machine.after_bytes (seen_state bytes.now at self.now) (take result (drop at bytes.now))
            ≡ Some (seen_state bytes.now (at + result) self.now) }
        ensures stays { IsTrue (is_past self.now.opened self.now.expected) → result ≡ 0 }
    {
        if self.is_past() {
            return 0;
        }
        self.plain_run(bytes, at)
    }

    /// Whether a value has ended, and nothing is open.
    fn is_past(&self) -> bool
        ensures { result ≡ is_past self.now.opened self.now.expected }
    {
        if self.opened.top().is_some() {
            return false;
        }
        matches!(self.expected, Expected::Next)
    }
}

/// Whether the byte at this place, where there is one, is one more of the number.
fn number_goes_on(phase: Phase, bytes: &[u8], at: usize) -> bool
    ensures { result ≡ number_goes_on (phase_of phase) bytes.now at }
{
    if at >= bytes.len() {
        return false;
    }
    match next_phase(phase, bytes[at]) {
        None => false,
        Some(_) => true,
    }
}
