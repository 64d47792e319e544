//! What is kept beside the lines of a script.

ghost use Rattle.sval_label.specs.Grouped.{int_call};
ghost use Rattle.std.specs.Prelude.{◌≡◌, ◌≤◌, ◌++◌, ◌∷◌, [], IfOk, OnOk, Some, take, drop, length, get_or};
ghost use Rattle.std.specs.Str.{IsUtf8};
ghost use Rattle.sval_script.specs.LineCalls.{stored, wide};
ghost use Rattle.sval_script.specs.NameNumbers.{label_numbers, index_numbers, name_numbers};
ghost use Rattle.sval_script.specs.NameNumbers.{label_count, name_count, next_label_len};
ghost use Rattle.sval_script.specs.MadeLines.{StoresCall, PutsWide};
ghost use Rattle.sval_script.specs.KnownLines.{StoresLine};

use crate::bytes::Bytes;
use crate::field::{IndexField, LabelField, LineError};
use crate::fields::{NameFields, NameRead};
use crate::known::{KeptLine, KnownLines};
use crate::line::Line;
use std::alloc::Global;
use sval_label::Int;

/// The bytes and numbers that are kept beside lines, one after another in the order of the lines.
#[derive(Drop)]
pub(crate) struct Store {
    /// Texts and binaries, decoded.
    pub(crate) bytes: Bytes,
    /// Numbers that find no place in their lines.
    pub(crate) numbers: Vec<u64>,
}

impl Store {
    /// An empty store.
    pub(crate) fn new(alloc: Global) -> Store
        ensures bytes { result.bytes.items ≡ [] }
        ensures numbers { result.numbers.items ≡ [] }
    {
        Store {
            bytes: Bytes::new(alloc),
            numbers: Vec::new(alloc),
        }
    }

    /// Puts a number behind the others.
    pub(crate) fn push(&mut self, number: u64) -> Result<(), LineError>
        ensures bytes { self.new.bytes.items ≡ self.old.bytes.items }
        ensures numbers { OnOk result (self.new.numbers.items ≡ self.old.numbers.items ++ (number ∷ [])) }
        ensures no_memory { ¬ (result ≡ Err LineError.Bad) }
    {
        self.numbers.push(number)?;
        Ok(())
    }

    /// Puts two numbers behind the others.
    #[inline(always)]
    pub(crate) fn push_two(&mut self, first: u64, second: u64) -> Result<(), LineError>
        ensures bytes { self.new.bytes.items ≡ self.old.bytes.items }
        ensures numbers { OnOk result
            (self.new.numbers.items ≡ self.old.numbers.items ++ (first ∷ second ∷ [])) }
        ensures no_memory { ¬ (result ≡ Err LineError.Bad) }
    {
        self.push(first)?;
        self.push(second)
    }

    /// Puts a number of 128 bits behind the others, as two numbers.
    fn push_wide(&mut self, number: u128) -> Result<(), LineError>
        ensures bytes { self.new.bytes.items ≡ self.old.bytes.items }
        ensures numbers { OnOk result (PutsWide number self.old.numbers.items self.new.numbers.items) }
        ensures no_memory { ¬ (result ≡ Err LineError.Bad) }
    {
        self.push_two((number / (1 << 64)) as u64, (number % (1 << 64)) as u64)
    }

    /// Puts the length of a label's text behind the others, if there is a label.
    fn push_len(&mut self, label: LabelField, len: u32) -> Result<(), LineError>
        ensures bytes { self.new.bytes.items ≡ self.old.bytes.items }
        ensures numbers { OnOk result
            (self.new.numbers.items ≡ self.old.numbers.items ++ label_numbers label len) }
        ensures no_memory { ¬ (result ≡ Err LineError.Bad) }
    {
        match label {
            LabelField::Absent => Ok(()),
            LabelField::Present(_) => self.push(u64::from(len)),
        }
    }

    /// Puts the number of an index behind the others, if there is an index.
    fn push_index(&mut self, index: IndexField, number: u64) -> Result<(), LineError>
        ensures bytes { self.new.bytes.items ≡ self.old.bytes.items }
        ensures numbers { OnOk result
            (self.new.numbers.items ≡ self.old.numbers.items ++ index_numbers index number) }
        ensures no_memory { ¬ (result ≡ Err LineError.Bad) }
    {
        match index {
            IndexField::Absent => Ok(()),
            IndexField::Present(_, _) => self.push(number),
        }
    }

    /// Puts the length of a name's label and the number of its index behind the others, if it has them.
    pub(crate) fn push_name(&mut self, name: NameRead) -> Result<(), LineError>
        ensures bytes { self.new.bytes.items ≡ self.old.bytes.items }
        ensures numbers { OnOk result (self.new.numbers.items ≡ self.old.numbers.items ++ name_numbers name) }
        ensures no_memory { ¬ (result ≡ Err LineError.Bad) }
    {
        self.push_len(name.parts.label, name.len)?;
        self.push_index(name.parts.index, name.number)
    }

    /// The line of a whole number. What doesn't fit the line goes behind the other numbers.
    pub(crate) fn put_number(&mut self, number: Int) -> Result<Line, LineError>
        ensures made { IfOk result (λ line. StoresCall (int_call number) (stored self.old) (stored self.new) line) }
        ensures no_memory { ¬ (result ≡ Err LineError.Bad) }
    {
        match number {
            Int::U8(number) => Ok(Line::U8(number)),
            Int::U16(number) => Ok(Line::U16(number)),
            Int::U32(number) => Ok(Line::U32(number)),
            Int::U64(number) => {
                self.push(number)?;
                Ok(Line::U64)
            }
            Int::U128(number) => {
                self.push_wide(number)?;
                Ok(Line::U128)
            }
            Int::I8(number) => Ok(Line::I8(number)),
            Int::I16(number) => Ok(Line::I16(number)),
            Int::I32(number) => Ok(Line::I32(number)),
            Int::I64(number) => {
                self.push(number.cast_unsigned())?;
                Ok(Line::I64)
            }
            Int::I128(number) => {
                self.push_wide(number.cast_unsigned())?;
                Ok(Line::I128)
            }
        }
    }

    /// Puts a line's own bytes and numbers behind the others.
    #[inline(always)]
    pub(crate) fn put_kept(&mut self, kept: KeptLine) -> Result<(), LineError>
        requires bytes { kept.text_len ≤ 16 }
        requires numbers { kept.count ≤ 2 }
        ensures bytes { OnOk result
            (self.new.bytes.items ≡ self.old.bytes.items ++ take kept.text_len kept.text) }
        ensures numbers { OnOk result
            (self.new.numbers.items ≡ self.old.numbers.items ++ take kept.count kept.numbers) }
        ensures no_memory { ¬ (result ≡ Err LineError.Bad) }
    {
        if kept.text_len > 0 {
            self.bytes.put_text(kept.text, kept.text_len)?;
        }
        match kept.count {
            0 => Ok(()),
            1 => self.push(kept.numbers[0]),
            _ => self.push_two(kept.numbers[0], kept.numbers[1]),
        }
    }

    /// Remembers a line with its line feed, whose own bytes and numbers are those from `start` and `count` on. It isn't
    /// remembered where it has more than two numbers, a text of more than 16 bytes or a line of more than 80, or where
    /// there is no room of 16 bytes behind its text.
    #[inline(never)]
    pub(crate) fn remember(
        &self,
        known: &mut KnownLines,
        spelled: &[u8],
        start: usize,
        count: usize,
        line: Line,
    )
        requires { StoresLine spelled.now start count (stored self.now) line }
    {
        let own = &self.numbers[count..];
        let mut numbers = [0; 2];
        if !known.wants_next() || own.len() > numbers.len() {
            known.pass_other();
            return;
        }
        let Some(text) = self.bytes.text_from(start) else {
            known.pass_other();
            return;
        };
        numbers[..own.len()].copy_from_slice(own);
        let kept = KeptLine {
            line,
            text,
            text_len: self.bytes.len() - start,
            numbers,
            count: own.len(),
        };
        known.remember(spelled, kept);
    }
}

/// A name that was read, with its label's text and its index's number, if it has them.
#[derive(Clone, Copy)]
pub(crate) struct NameLeft<'v> {
    pub(crate) parts: NameFields,
    pub(crate) text: &'v str,
    pub(crate) number: u64,
}

/// The text that bytes are.
pub(crate) fn text(bytes: &[u8]) -> &str
    requires { IsUtf8 bytes.now }
    ensures { result.now ≡ bytes.now }
{
    // SAFETY: they are UTF-8, as required.
    unsafe { std::str::from_utf8_unchecked(bytes) }
}

/// What is left of a store while its lines are made, one after another.
#[derive(Drop)]
pub(crate) struct Left<'v> {
    pub(crate) bytes: &'v [u8],
    pub(crate) numbers: &'v [u64],
}

impl<'v> Left<'v> {
    /// The next numbers.
    #[inline(always)]
    pub(crate) fn numbers(&mut self, count: usize) -> &'v [u64]
        requires { count ≤ length self.old.numbers.now }
        ensures own { result.now ≡ take count self.old.numbers.now }
        ensures count { length result.now ≡ count }
        ensures numbers { self.new.numbers.now ≡ drop count self.old.numbers.now }
        ensures bytes { self.new.bytes.now ≡ self.old.bytes.now }
    {
        let (own, left) = self.numbers.split_at(count);
        self.numbers = left;
        own
    }

    /// The next number.
    #[inline(always)]
    pub(crate) fn number(&mut self) -> u64
        requires { 1 ≤ length self.old.numbers.now }
        ensures own { result ≡ get_or (take 1 self.old.numbers.now) 0 0 }
        ensures numbers { self.new.numbers.now ≡ drop 1 self.old.numbers.now }
        ensures bytes { self.new.bytes.now ≡ self.old.bytes.now }
    {
        self.numbers(1)[0]
    }

    /// The next number, a size.
    #[inline(always)]
    pub(crate) fn size(&mut self) -> Option<usize>
        requires { 1 ≤ length self.old.numbers.now }
        ensures own { result ≡ Some (get_or (take 1 self.old.numbers.now) 0 0) }
        ensures numbers { self.new.numbers.now ≡ drop 1 self.old.numbers.now }
        ensures bytes { self.new.bytes.now ≡ self.old.bytes.now }
    {
        Some(self.number() as usize)
    }

    /// The number of 128 bits that the next two are, the upper one first.
    #[inline(always)]
    pub(crate) fn wide(&mut self) -> u128
        requires { 2 ≤ length self.old.numbers.now }
        ensures own { result ≡ wide (take 2 self.old.numbers.now) }
        ensures numbers { self.new.numbers.now ≡ drop 2 self.old.numbers.now }
        ensures bytes { self.new.bytes.now ≡ self.old.bytes.now }
    {
        let own = self.numbers(2);
        u128::from(own[0]) * (1 << 64) + u128::from(own[1])
    }

    /// The next bytes.
    #[inline(always)]
    pub(crate) fn bytes(&mut self, len: usize) -> &'v [u8]
        requires { len ≤ length self.old.bytes.now }
        ensures own { result.now ≡ take len self.old.bytes.now }
        ensures bytes { self.new.bytes.now ≡ drop len self.old.bytes.now }
        ensures numbers { self.new.numbers.now ≡ self.old.numbers.now }
    {
        let (own, left) = self.bytes.split_at(len);
        self.bytes = left;
        own
    }

    /// The next bytes, which are a text.
    #[inline(always)]
    pub(crate) fn text(&mut self, len: usize) -> &'v str
        requires within { len ≤ length self.old.bytes.now }
        requires text { IsUtf8 (take len self.old.bytes.now) }
        ensures own { result.now ≡ take len self.old.bytes.now }
        ensures bytes { self.new.bytes.now ≡ drop len self.old.bytes.now }
        ensures numbers { self.new.numbers.now ≡ self.old.numbers.now }
    {
        // They were found to be UTF-8 when they were read.
        text(self.bytes(len))
    }

    /// The name of these fields, whose numbers and text are the next.
    #[inline(always)]
    pub(crate) fn name(&mut self, parts: NameFields) -> NameLeft<'v>
        requires count { name_count parts ≤ length self.old.numbers.now }
        requires within { next_label_len parts self.old.numbers.now ≤ length self.old.bytes.now }
        requires text { IsUtf8 (take (next_label_len parts self.old.numbers.now) self.old.bytes.now) }
        ensures parts { result.parts ≡ parts }
        ensures text { result.text.now ≡ take (next_label_len parts self.old.numbers.now) self.old.bytes.now }
        ensures number { result.number
            ≡ get_or (take (name_count parts) self.old.numbers.now) (label_count parts.label) 0 }
        ensures numbers { self.new.numbers.now ≡ drop (name_count parts) self.old.numbers.now }
        ensures bytes { self.new.bytes.now
            ≡ drop (next_label_len parts self.old.numbers.now) self.old.bytes.now }
    {
        let own = self.numbers(parts.count());
        NameLeft {
            parts,
            text: self.text(parts.label.len(own)),
            number: parts.number(own),
        }
    }
}
