//! What the reader waits for, and which bytes it would take.

ghost use Rattle.std.specs.Prelude.{◌≡◌, is_some};
ghost use Rattle.sval_json_read.specs.NextCharacters.{innermost_alone, waiting_state};
ghost use Rattle.sval_json_read.specs.Reader as machine;
ghost use Rattle.sval_json_read.specs.SeenOpened.{TopContainerIs};
ghost use Rattle.sval_json_read.specs.declared.reader.Expected.TheVariants as expected;

use super::container::is_white;
use super::{Expected, Reader};
use crate::number::{Phase, first_phase, is_of_numbers, may_end, next_phase};
use crate::stack::Opened;
use crate::string::{Within, next_within};
use crate::word::Word;

/// What the next byte depends on: what comes next, and the innermost container.
#[derive(Clone, Copy)]
pub(crate) struct Waiting {
    pub(crate) expected: Expected,
    pub(crate) innermost: Option<Opened>,
}

impl Reader {
    /// What the next byte depends on.
    pub(crate) fn waiting(&self) -> Waiting
        ensures expected { result.expected ≡ self.now.expected }
        ensures innermost { TopContainerIs result.innermost self.now.opened }
    {
        Waiting {
            expected: self.expected,
            innermost: self.opened.top(),
        }
    }
}

impl Waiting {
    /// Whether the text may end here.
    pub(crate) fn ends(self) -> bool
        ensures { result ≡ is_some (machine.tokens_at_end (waiting_state self)) }
    {
        if self.innermost.is_some() {
            return false;
        }
        match self.expected {
            Expected::Next => true,
            Expected::InNumber(phase) => may_end(phase),
            _ => false,
        }
    }

    /// Whether the reader would take this byte.
    pub(crate) fn takes(self, byte: u8) -> bool
        ensures { result ≡ is_some (machine.reader_step (waiting_state self) byte) }
    {
        match self.expected {
            Expected::AValue => self.value(byte),
            Expected::FirstItem => self.first_item(byte),
            Expected::FirstKey => self.first_key(byte),
            Expected::NextKey => self.next_key(byte),
            Expected::Colon => self.colon(byte),
            Expected::Next => self.follows(byte),
            Expected::Letter(word) => self.letter(word, byte),
            Expected::InNumber(phase) => self.number(phase, byte),
            Expected::InString(is_key, within) => self.string(is_key, within, byte),
        }
    }

    /// Whether a value begins with this byte.
    fn begins(self, byte: u8) -> bool
        ensures { result ≡ is_some (machine.begins (waiting_state self) byte) }
    {
        match byte {
            b'"' | b'[' | b'{' | b'n' | b't' | b'f' => true,
            _ => match first_phase(byte) {
                None => false,
                Some(_) => true,
            },
        }
    }

    /// Whether the byte is a comma or the end of what is open.
    fn goes_on(self, byte: u8) -> bool
        ensures { result ≡ is_some
            (machine.comma_or_close (waiting_state self) (innermost_alone self.innermost) byte) }
    {
        match (self.innermost, byte) {
            (Some(_), b',') => true,
            (Some(Opened::Array), b']') => true,
            (Some(Opened::Object), b'}') => true,
            _ => false,
        }
    }

    /// Whether the byte may follow a value.
    fn follows(self, byte: u8) -> bool
        ensures { result ≡ is_some (machine.follows (waiting_state self) byte) }
    {
        if is_white(byte) {
            return true;
        }
        self.goes_on(byte)
    }

    /// Whether the byte may come where the next value is expected.
    fn value(self, byte: u8) -> bool
        requires { self.expected ≡ expected.AValue }
        ensures { result ≡ is_some (machine.reader_step (waiting_state self) byte) }
    {
        if is_white(byte) {
            return true;
        }
        self.begins(byte)
    }

    /// Whether the byte may come where the first item of an array or its end is expected.
    fn first_item(self, byte: u8) -> bool
        requires { self.expected ≡ expected.FirstItem }
        ensures { result ≡ is_some (machine.reader_step (waiting_state self) byte) }
    {
        if is_white(byte) {
            return true;
        }
        if byte == b']' {
            return self.follows(byte);
        }
        self.begins(byte)
    }

    /// Whether the byte may come where the first key of an object or its end is expected.
    fn first_key(self, byte: u8) -> bool
        requires { self.expected ≡ expected.FirstKey }
        ensures { result ≡ is_some (machine.reader_step (waiting_state self) byte) }
    {
        if is_white(byte) {
            return true;
        }
        if byte == b'}' {
            return self.follows(byte);
        }
        byte == b'"'
    }

    /// Whether the byte may come where the next key of an object is expected.
    fn next_key(self, byte: u8) -> bool
        requires { self.expected ≡ expected.NextKey }
        ensures { result ≡ is_some (machine.reader_step (waiting_state self) byte) }
    {
        if is_white(byte) {
            return true;
        }
        byte == b'"'
    }

    /// Whether the byte may come where a colon is expected.
    fn colon(self, byte: u8) -> bool
        requires { self.expected ≡ expected.Colon }
        ensures { result ≡ is_some (machine.reader_step (waiting_state self) byte) }
    {
        if is_white(byte) {
            return true;
        }
        byte == b':'
    }

    /// Whether the byte is the next letter of a word.
    fn letter(self, word: Word, byte: u8) -> bool
        requires { self.expected ≡ expected.Letter word }
        ensures { result ≡ is_some (machine.reader_step (waiting_state self) byte) }
    {
        match word.after(byte) {
            None => false,
            Some(_) => true,
        }
    }

    /// Whether the byte is one more of a number, or may follow it.
    #[tactic(auto, using(crate::proofs::Waits::number_follows))]
    fn number(self, phase: Phase, byte: u8) -> bool
        requires { self.expected ≡ expected.InNumber phase }
        ensures { result ≡ is_some (machine.reader_step (waiting_state self) byte) }
    {
        if is_of_numbers(byte) {
            return match next_phase(phase, byte) {
                None => false,
                Some(_) => true,
            };
        }
        if !may_end(phase) {
            return false;
        }
        self.follows(byte)
    }

    /// Whether the byte is one more of a string, or its closing quote.
    fn string(self, is_key: bool, within: Within, byte: u8) -> bool
        requires { self.expected ≡ expected.InString is_key within }
        ensures { result ≡ is_some (machine.reader_step (waiting_state self) byte) }
    {
        if within == Within::Plain && byte == b'"' {
            return true;
        }
        match next_within(within, byte) {
            None => false,
            Some(_) => true,
        }
    }
}
