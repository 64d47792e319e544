//! Bytes that are passed over together, since no node is kept of them.

ghost use Rattle.std.specs.Prelude.{◌≡◌, ◌+◌, ◌<◌, ◌≤◌, [], ◌∷◌, length, get_or, true};
ghost use Rattle.sval_json_read.specs.Reader as machine;
ghost use Rattle.sval_json_read.specs.Strings.{Plain};
ghost use Rattle.sval_json_read.specs.SeenReader.{expected_of, phase_of, takes_values, takes_keys, IsReadTo, Passes, LeadsTo};
ghost use Rattle.sval_json_read.specs.declared.reader.Expected.TheVariants as expected;

use super::{Expected, Reader};
use crate::number::{Phase, first_phase};
use crate::stack::Opened;
use crate::word::Word;

impl Reader {
    /// The place behind the bytes that come next, as far as they make no node.
    ///
    /// These are white space, a comma, a colon, the rest of a word, and the first bytes of a number or string.
    #[inline(always)]
    pub(crate) fn pass_over(&mut self, bytes: &[u8], at: usize) -> usize
        requires at_in { at ≤ length bytes.now }
        requires reads { IsReadTo bytes.now at self.old }
        ensures { Passes bytes.now at self.old result self.new }
    {
        match self.expected {
            Expected::AValue | Expected::FirstItem => self.into_value(bytes, at),
            Expected::FirstKey | Expected::NextKey => self.into_key(bytes, at),
            Expected::Colon => self.behind_colon(bytes, at),
            Expected::Next => self.behind_comma(bytes, at),
            Expected::Letter(word) => self.behind_word(word, bytes, at),
            Expected::InNumber(_) | Expected::InString(..) => self.behind_run(bytes, at),
        }
    }

    /// The place behind what [`Reader::plain_run`] passes over.
    #[inline(always)]
    fn behind_run(&self, bytes: &[u8], at: usize) -> usize
        requires at_in { at ≤ length bytes.now }
        requires reads { IsReadTo bytes.now at self.now }
        ensures { Passes bytes.now at self.now result self.now }
    {
        at + self.plain_run(bytes, at)
    }

    /// The place behind the white space between two tokens. How much there was is kept, as a guess for the next time.
    #[inline(always)]
    fn behind_spaces(&mut self, bytes: &[u8], at: usize) -> usize
        requires at_in { at ≤ length bytes.now }
        requires reads { IsReadTo bytes.now at self.old }
        ensures passes { Passes bytes.now at self.old result self.new }
        ensures expected { self.new.expected ≡ self.old.expected }
        ensures opened { self.new.opened ≡ self.old.opened }
    {
        let count = self.plain_run(bytes, at);
        if count > 1 {
            self.spaces = count;
        }
        at + count
    }

    /// Takes a byte behind which this comes next, and gives the place behind it.
    #[inline(always)]
    fn expect(&mut self, expected: Expected, bytes: &[u8], at: usize) -> usize
        requires at_in { at < length bytes.now }
        requires reads { IsReadTo bytes.now at self.old }
        requires steps { LeadsTo bytes.now at self.old (expected_of bytes.now self.old.from (at + 1) expected) }
        ensures passes { Passes bytes.now at self.old result self.new }
        ensures expected { self.new.expected ≡ expected }
    {
        self.expected = expected;
        at + 1
    }

    /// Passes over the first bytes of a string, from its quote on.
    #[inline(always)]
    fn into_string(&mut self, is_key: bool, bytes: &[u8], at: usize) -> usize
        requires at_in { at < length bytes.now }
        requires reads { IsReadTo bytes.now at self.old }
        requires quote { get_or bytes.now at 0 ≡ 34 }
        requires steps { LeadsTo bytes.now at self.old (machine.InString is_key Plain []) }
        ensures { Passes bytes.now at self.old result self.new }
    {
        self.begin_string(is_key, bytes, at);
        self.behind_run(bytes, at + 1)
    }

    /// Passes over the first bytes of a number.
    #[inline(always)]
    fn into_number(&mut self, phase: Phase, bytes: &[u8], at: usize) -> usize
        requires at_in { at < length bytes.now }
        requires reads { IsReadTo bytes.now at self.old }
        requires ascii { get_or bytes.now at 0 < 128 }
        requires steps { LeadsTo bytes.now at self.old
            (machine.InNumber (phase_of phase) (get_or bytes.now at 0 ∷ [])) }
        ensures { Passes bytes.now at self.old result self.new }
    {
        self.begin_number(phase, bytes, at);
        self.behind_run(bytes, at + 1)
    }

    /// Passes over white space, and the first bytes of a number or string that is a value.
    #[tactic(auto, using(crate::proofs::Passed::of_steps))]
    #[inline(always)]
    fn into_value(&mut self, bytes: &[u8], at: usize) -> usize
        requires at_in { at ≤ length bytes.now }
        requires reads { IsReadTo bytes.now at self.old }
        requires is { takes_values self.old.expected ≡ true }
        ensures { Passes bytes.now at self.old result self.new }
    {
        let begin = self.behind_spaces(bytes, at);
        if begin == bytes.len() {
            return begin;
        }
        if bytes[begin] == b'"' {
            return self.into_string(false, bytes, begin);
        }
        match first_phase(bytes[begin]) {
            None => begin,
            Some(phase) => self.into_number(phase, bytes, begin),
        }
    }

    /// Passes over white space, and the first bytes of a key.
    #[tactic(auto, using(crate::proofs::Passed::of_steps))]
    #[inline(always)]
    fn into_key(&mut self, bytes: &[u8], at: usize) -> usize
        requires at_in { at ≤ length bytes.now }
        requires reads { IsReadTo bytes.now at self.old }
        requires is { takes_keys self.old.expected ≡ true }
        ensures { Passes bytes.now at self.old result self.new }
    {
        let begin = self.behind_spaces(bytes, at);
        if begin == bytes.len() || bytes[begin] != b'"' {
            return begin;
        }
        self.into_string(true, bytes, begin)
    }

    /// Passes over white space and a colon, and into the value.
    #[tactic(auto, using(crate::proofs::Passed::of_steps))]
    #[inline(always)]
    fn behind_colon(&mut self, bytes: &[u8], at: usize) -> usize
        requires at_in { at ≤ length bytes.now }
        requires reads { IsReadTo bytes.now at self.old }
        requires is { self.old.expected ≡ expected.Colon }
        ensures { Passes bytes.now at self.old result self.new }
    {
        let colon = self.behind_spaces(bytes, at);
        if colon == bytes.len() || bytes[colon] != b':' {
            return colon;
        }
        let behind = self.expect(Expected::AValue, bytes, colon);
        self.into_value(bytes, behind)
    }

    /// Passes over white space and a comma, and into the next value or key.
    #[tactic(auto, using(crate::proofs::Passed::of_steps))]
    #[inline(always)]
    fn behind_comma(&mut self, bytes: &[u8], at: usize) -> usize
        requires at_in { at ≤ length bytes.now }
        requires reads { IsReadTo bytes.now at self.old }
        requires is { self.old.expected ≡ expected.Next }
        ensures { Passes bytes.now at self.old result self.new }
    {
        let comma = self.behind_spaces(bytes, at);
        if comma == bytes.len() || bytes[comma] != b',' {
            return comma;
        }
        match self.opened.top() {
            None => comma,
            Some(Opened::Array) => {
                let behind = self.expect(Expected::AValue, bytes, comma);
                self.into_value(bytes, behind)
            },
            Some(Opened::Object) => {
                let behind = self.expect(Expected::NextKey, bytes, comma);
                self.into_key(bytes, behind)
            },
        }
    }

    /// Passes over the letters that are left of a word, and what [`Reader::behind_comma`] passes over.
    #[inline(always)]
    fn behind_word(&mut self, word: Word, bytes: &[u8], at: usize) -> usize
        requires at_in { at ≤ length bytes.now }
        requires reads { IsReadTo bytes.now at self.old }
        requires is { self.old.expected ≡ expected.Letter word }
        ensures { Passes bytes.now at self.old result self.new }
    {
        let letters = word.letters();
        if bytes[at..].starts_with(letters) {
            self.expected = Expected::Next;
            return self.behind_comma(bytes, at + letters.len());
        }
        at
    }
}
