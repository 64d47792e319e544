//! Where values begin and what follows them.

ghost use Rattle.std.specs.Prelude.{◌≡◌, ◌+◌, ◌<◌, [], ◌∷◌, IfOk, length, get_or};
ghost use Rattle.sval_json.specs.Grammar.{is_space};
ghost use Rattle.sval_json_read.specs.Strings.{Plain};
ghost use Rattle.sval_json_read.specs.Reader as machine;
ghost use Rattle.sval_json_read.specs.SeenReader.{seen_state, phase_of, GivesState, OpensContainer, ClosesContainer, TakesByte, KeepsRead, WantsOnlyFor, IsReadTo};
ghost use Rattle.sval_json_read.specs.declared.reader.Expected.TheVariants as expected;

use super::{Expected, Reader};
use crate::node::Node;
use crate::number::{Phase, first_phase};
use crate::stack::Opened;
use crate::string::Within;
use crate::word::Word;
use sval_core::NoMemory;

impl Reader {
    /// Reads a comma or the end of what is open.
    #[inline(always)]
    fn goes_on(&mut self, bytes: &[u8], at: usize) -> Result<bool, NoMemory>
        requires at_in { at < length bytes.now }
        requires reads { IsReadTo bytes.now at self.old }
        ensures gives { TakesByte (λ state. machine.comma_or_close state self.old.opened)
            bytes.now at self.old result self.new }
        ensures reads { KeepsRead bytes.now (at + 1) result self.new }
        ensures no_memory { WantsOnlyFor (λ state. machine.comma_or_close state self.old.opened)
            bytes.now at self.old result }
    {
        match (self.opened.top(), bytes[at]) {
            (Some(Opened::Array), b',') => self.expected = Expected::AValue,
            (Some(Opened::Object), b',') => self.expected = Expected::NextKey,
            (Some(Opened::Array), b']') => self.end(Opened::Array)?,
            (Some(Opened::Object), b'}') => self.end(Opened::Object)?,
            _ => return Ok(false),
        }
        Ok(true)
    }

    /// Reads one byte after a value.
    #[inline(always)]
    pub(crate) fn follows(&mut self, bytes: &[u8], at: usize) -> Result<bool, NoMemory>
        requires at_in { at < length bytes.now }
        requires reads { IsReadTo bytes.now at self.old }
        ensures gives { TakesByte machine.follows bytes.now at self.old result self.new }
        ensures reads { KeepsRead bytes.now (at + 1) result self.new }
        ensures no_memory { WantsOnlyFor machine.follows bytes.now at self.old result }
    {
        if is_white(bytes[at]) {
            self.expected = Expected::Next;
            return Ok(true);
        }
        self.goes_on(bytes, at)
    }

    /// Begins an array or an object.
    fn begin(&mut self, container: Opened, expected: Expected) -> Result<(), NoMemory>
        ensures { IfOk result (λ done. OpensContainer self.old container expected self.new) }
    {
        let place = self.place();
        self.nodes.begin(container, place)?;
        self.expected = expected;
        self.opened.push(container)
    }

    /// Ends the array or the object that is innermost.
    fn end(&mut self, container: Opened) -> Result<(), NoMemory>
        ensures { IfOk result (λ done. ClosesContainer self.old container self.new) }
    {
        self.opened.pop();
        let place = self.place();
        self.nodes.end(container, place)?;
        self.expected = Expected::Next;
        Ok(())
    }

    /// Begins a string behind its quote.
    #[tactic(auto, using(crate::proofs::KeptNodes::between_nothing))]
    pub(super) fn begin_string(&mut self, is_key: bool, bytes: &[u8], at: usize)
        requires at_in { at < length bytes.now }
        requires reads { IsReadTo bytes.now at self.old }
        requires quote { get_or bytes.now at 0 ≡ 34 }
        ensures begins { seen_state bytes.now (at + 1) self.new
            ≡ machine.expects (seen_state bytes.now at self.old) (machine.InString is_key Plain []) }
        ensures reads { IsReadTo bytes.now (at + 1) self.new }
    {
        self.from = at + 1;
        self.expected = Expected::InString(is_key, Within::Plain);
    }

    /// Begins a number with this byte.
    #[tactic(auto, using(crate::proofs::KeptNodes::between_one, crate::proofs::ReaderPlaces::reads_number))]
    pub(super) fn begin_number(&mut self, phase: Phase, bytes: &[u8], at: usize)
        requires at_in { at < length bytes.now }
        requires reads { IsReadTo bytes.now at self.old }
        requires ascii { get_or bytes.now at 0 < 128 }
        ensures begins { seen_state bytes.now (at + 1) self.new
            ≡ machine.expects (seen_state bytes.now at self.old)
            (machine.InNumber (phase_of phase) (get_or bytes.now at 0 ∷ [])) }
        ensures reads { IsReadTo bytes.now (at + 1) self.new }
    {
        self.from = at;
        self.expected = Expected::InNumber(phase);
    }

    /// Reads the first byte of a value.
    #[inline(always)]
    fn begins(&mut self, bytes: &[u8], at: usize) -> Result<bool, NoMemory>
        requires at_in { at < length bytes.now }
        requires reads { IsReadTo bytes.now at self.old }
        ensures gives { TakesByte machine.begins bytes.now at self.old result self.new }
        ensures reads { KeepsRead bytes.now (at + 1) result self.new }
        ensures no_memory { WantsOnlyFor machine.begins bytes.now at self.old result }
    {
        let byte = bytes[at];
        match byte {
            b'"' => self.begin_string(false, bytes, at),
            b'[' => self.begin(Opened::Array, Expected::FirstItem)?,
            b'{' => self.begin(Opened::Object, Expected::FirstKey)?,
            b'n' => {
                let place = self.place();
                self.add(Node::Null(place), Expected::Letter(Word::Ull))?;
            },
            b't' => {
                let place = self.place();
                self.add(Node::Bool(place, true), Expected::Letter(Word::Rue))?;
            },
            b'f' => {
                let place = self.place();
                self.add(Node::Bool(place, false), Expected::Letter(Word::Alse))?;
            },
            _ => match first_phase(byte) {
                None => return Ok(false),
                Some(phase) => self.begin_number(phase, bytes, at),
            },
        }
        Ok(true)
    }

    /// Reads the first byte of a key.
    fn begins_key(&mut self, bytes: &[u8], at: usize) -> bool
        requires at_in { at < length bytes.now }
        requires reads { IsReadTo bytes.now at self.old }
        ensures gives { GivesState (machine.begins_key (seen_state bytes.now at self.old) (get_or bytes.now at 0))
            (seen_state bytes.now (at + 1) self.new) result }
        ensures reads { IsReadTo bytes.now (at + 1) self.new }
    {
        if bytes[at] != b'"' {
            return false;
        }
        self.begin_string(true, bytes, at);
        true
    }

    /// Reads a byte where the next value is expected.
    pub(crate) fn value(&mut self, bytes: &[u8], at: usize) -> Result<bool, NoMemory>
        requires at_in { at < length bytes.now }
        requires reads { IsReadTo bytes.now at self.old }
        requires is { self.old.expected ≡ expected.AValue }
        ensures gives { TakesByte machine.reader_step bytes.now at self.old result self.new }
        ensures reads { KeepsRead bytes.now (at + 1) result self.new }
        ensures no_memory { WantsOnlyFor machine.reader_step bytes.now at self.old result }
    {
        if is_white(bytes[at]) {
            return Ok(true);
        }
        self.begins(bytes, at)
    }

    /// Reads a byte where the first item of an array or its end is expected.
    pub(crate) fn first_item(&mut self, bytes: &[u8], at: usize) -> Result<bool, NoMemory>
        requires at_in { at < length bytes.now }
        requires reads { IsReadTo bytes.now at self.old }
        requires is { self.old.expected ≡ expected.FirstItem }
        ensures gives { TakesByte machine.reader_step bytes.now at self.old result self.new }
        ensures reads { KeepsRead bytes.now (at + 1) result self.new }
        ensures no_memory { WantsOnlyFor machine.reader_step bytes.now at self.old result }
    {
        if is_white(bytes[at]) {
            return Ok(true);
        }
        if bytes[at] == b']' {
            return self.follows(bytes, at);
        }
        self.begins(bytes, at)
    }

    /// Reads a byte where the first key of an object or its end is expected.
    pub(crate) fn first_key(&mut self, bytes: &[u8], at: usize) -> Result<bool, NoMemory>
        requires at_in { at < length bytes.now }
        requires reads { IsReadTo bytes.now at self.old }
        requires is { self.old.expected ≡ expected.FirstKey }
        ensures gives { TakesByte machine.reader_step bytes.now at self.old result self.new }
        ensures reads { KeepsRead bytes.now (at + 1) result self.new }
        ensures no_memory { WantsOnlyFor machine.reader_step bytes.now at self.old result }
    {
        if is_white(bytes[at]) {
            return Ok(true);
        }
        if bytes[at] == b'}' {
            return self.follows(bytes, at);
        }
        Ok(self.begins_key(bytes, at))
    }

    /// Reads a byte where the next key of an object is expected.
    pub(crate) fn next_key(&mut self, bytes: &[u8], at: usize) -> bool
        requires at_in { at < length bytes.now }
        requires reads { IsReadTo bytes.now at self.old }
        requires is { self.old.expected ≡ expected.NextKey }
        ensures gives { GivesState (machine.reader_step (seen_state bytes.now at self.old) (get_or bytes.now at 0))
            (seen_state bytes.now (at + 1) self.new) result }
        ensures reads { IsReadTo bytes.now (at + 1) self.new }
    {
        is_white(bytes[at]) || self.begins_key(bytes, at)
    }

    /// Reads a byte where a colon is expected.
    pub(crate) fn colon(&mut self, bytes: &[u8], at: usize) -> bool
        requires at_in { at < length bytes.now }
        requires reads { IsReadTo bytes.now at self.old }
        requires is { self.old.expected ≡ expected.Colon }
        ensures gives { GivesState (machine.reader_step (seen_state bytes.now at self.old) (get_or bytes.now at 0))
            (seen_state bytes.now (at + 1) self.new) result }
        ensures reads { IsReadTo bytes.now (at + 1) self.new }
    {
        if is_white(bytes[at]) {
            return true;
        }
        if bytes[at] != b':' {
            return false;
        }
        self.expected = Expected::AValue;
        true
    }
}

/// Whether a byte is white space.
pub(super) fn is_white(byte: u8) -> bool
    ensures { result ≡ is_space byte }
{
    byte <= b' ' && matches!(byte, b' ' | b'\t' | b'\n' | b'\r')
}
