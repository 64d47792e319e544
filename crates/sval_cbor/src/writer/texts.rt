//! Texts, numbers in texts, and binaries.

ghost use Rattle.std.specs.Prelude.{◌≡◌, ◌++◌, [], false, true, Ok};
ghost use Rattle.sval_json.specs.Digits.{has_digit};
ghost use Rattle.sval_json.specs.Number.{normal, sign};
ghost use Rattle.sval_json.specs.Shape.{byte_items};
ghost use Rattle.sval_cbor.specs.Packs.{on_packed};
ghost use Rattle.sval_cbor.specs.Cbor.{string, integer, row_end, cbor_as, cbor_items};
ghost use Rattle.sval_json.specs.Json.{array};
ghost use Rattle.sval_cbor.specs.SeenNumber.{IsUnsigned};
ghost use Rattle.sval_cbor.specs.SeenWriter.{seen_normal};
ghost use Rattle.sval_cbor.specs.Writing.{Elsewhere, writes, unless_key, text_bytes, number_bytes};
ghost use Rattle.sval_cbor.specs.Writing.{binary_bytes};
ghost use Rattle.sval_cbor.specs.WriterLaw.{CborDoes, cbor_writer_state, writer_target, cbor_writer_view};

use crate::error::{Refusal, Stop};
use crate::head::{write_byte_string, write_joined};
use crate::integer::Integer;
use crate::number::{NormalForm, normal, whole};
use crate::style::Binaries;
use crate::writer::{ARRAY, Place, Writer};
use sval_core::{Error, Result};
use sval_io::Sink;

/// The sign in front of a number.
fn sign(negative: bool) -> &'static [u8]
    ensures { result.now ≡ sign negative }
{
    if negative { b"-" } else { b"" }
}

impl<'k, K: Sink> Writer<'k, K> {
    /// Writes a text of two pieces.
    fn write_joined(&mut self, first: &[u8], second: &[u8]) -> Result
        ensures { CborDoes (writes (string 3 (first.now ++ second.now)) (cbor_writer_state self.old)) result
            (writer_target K.told self.old) (cbor_writer_view K.told self.new) }
    {
        match write_joined(self.sink, first, second) {
            Ok(()) => Ok(()),
            Err(why) => {
                self.why = Some(Stop::Sink(why));
                Err(Error::new())
            }
        }
    }

    /// Writes a whole text, or what it stands for.
    #[inline(never)]
    pub(crate) fn write_fragment(&mut self, text: &str) -> Result
        ensures { let state = cbor_writer_state self.old in
            CborDoes (on_packed (text_bytes state text.now)
            (λ made. writes made (record state { place = Elsewhere }))) result
            (writer_target K.told self.old) (cbor_writer_view K.told self.new) }
    {
        self.place = Place::Elsewhere;
        if self.in_number {
            return self.write_number(text.as_bytes());
        }
        self.write_text(text.as_bytes())
    }

    /// Writes the number that a text stands for, by its digits in a key.
    #[tactic(auto, using(crate::proofs::Combined::bad_number))]
    fn write_number(&mut self, text: &[u8]) -> Result
        ensures { let state = cbor_writer_state self.old in
            CborDoes (on_packed (number_bytes state.in_key (normal text.now)) (λ made. writes made state)) result
            (writer_target K.told self.old) (cbor_writer_view K.told self.new) }
    {
        let Some(found) = normal(text) else {
            return self.refuse(Refusal::Number);
        };
        if self.in_key {
            return self.write_digits(found);
        }
        self.write_packed(found)
    }

    /// Writes the digits of a number as a text.
    fn write_digits(&mut self, found: NormalForm) -> Result
        ensures { CborDoes (writes (string 3 (seen_normal found.entry)) (cbor_writer_state self.old)) result
            (writer_target K.told self.old) (cbor_writer_view K.told self.new) }
    {
        match found {
            NormalForm::Null => self.write_text(b"null"),
            NormalForm::Number { negative, unsigned } => self.write_joined(
                sign(negative),
                unsigned,
            ),
        }
    }

    /// Writes a number that is whole, or `null`.
    fn write_packed(&mut self, found: NormalForm) -> Result
        requires { IsUnsigned found }
        ensures { let state = cbor_writer_state self.old in
            CborDoes (on_packed (number_bytes false (Ok (seen_normal found.entry))) (λ made. writes made state)) result
            (writer_target K.told self.old) (cbor_writer_view K.told self.new) }
    {
        match found {
            NormalForm::Null => self.write(b"\xf6"),
            NormalForm::Number { negative, unsigned } => self.write_whole(negative, unsigned),
        }
    }

    /// Writes a number that is whole.
    fn write_whole(&mut self, negative: bool, unsigned: &[u8]) -> Result
        requires { has_digit unsigned.now ≡ true }
        ensures { let state = cbor_writer_state self.old in
            CborDoes (on_packed (number_bytes false (Ok (sign negative ++ unsigned.now)))
            (λ made. writes made state)) result
            (writer_target K.told self.old) (cbor_writer_view K.told self.new) }
    {
        match whole(negative, unsigned) {
            Some(number) => self.write_integer(number),
            None => self.refuse(Refusal::NotInteger),
        }
    }

    /// Writes bytes as items of an array.
    #[inline(never)]
    fn write_bytes(&mut self, bytes: &[u8]) -> Result
        ensures { CborDoes (writes (cbor_items (byte_items bytes.now)) (cbor_writer_state self.old)) result
            (writer_target K.told self.old) (cbor_writer_view K.told self.new) }
    {
        let mut rest = bytes;
        while let Some((byte, after)) = rest.split_first() {
            self.write_integer(Integer::Unsigned(*byte as u128))?;
            rest = after;
        }
        Ok(())
    }

    /// Begins a binary, which can't be in a key.
    pub(crate) fn begin_binary(&mut self) -> Result
        ensures { let state = cbor_writer_state self.old in
            CborDoes (unless_key state (writes [] (record state { place = Elsewhere }))) result
            (writer_target K.told self.old) (cbor_writer_view K.told self.new) }
    {
        if self.in_key {
            return self.refuse(Refusal::Key);
        }
        self.place = Place::Elsewhere;
        self.write(b"")
    }

    /// Writes a byte string.
    fn write_byte_string(&mut self, bytes: &[u8]) -> Result
        ensures { CborDoes (writes (string 2 bytes.now) (cbor_writer_state self.old)) result
            (writer_target K.told self.old) (cbor_writer_view K.told self.new) }
    {
        match write_byte_string(self.sink, bytes) {
            Ok(()) => Ok(()),
            Err(why) => {
                self.why = Some(Stop::Sink(why));
                Err(Error::new())
            }
        }
    }

    /// Writes bytes as items of an array, and its end.
    fn write_items(&mut self, bytes: &[u8]) -> Result
        ensures { let state = cbor_writer_state self.old in
            CborDoes (writes (cbor_items (byte_items bytes.now) ++ row_end state.style.lengths) state) result
            (writer_target K.told self.old) (cbor_writer_view K.told self.new) }
    {
        self.write_bytes(bytes)?;
        self.write_row_end()
    }

    /// Writes bytes as an array of numbers.
    fn write_numbers(&mut self, bytes: &[u8]) -> Result
        ensures { let state = cbor_writer_state self.old in
            CborDoes (writes (cbor_as state.style.lengths (array (byte_items bytes.now))) state) result
            (writer_target K.told self.old) (cbor_writer_view K.told self.new) }
    {
        self.write_row_head(ARRAY, bytes.len() as u64)?;
        self.write_items(bytes)
    }

    /// Writes a binary.
    pub(crate) fn write_binary(&mut self, bytes: &[u8]) -> Result
        ensures { let state = cbor_writer_state self.old in
            CborDoes (writes (binary_bytes state.style bytes.now) state) result
            (writer_target K.told self.old) (cbor_writer_view K.told self.new) }
    {
        match self.style.binaries {
            Binaries::Numbers => self.write_numbers(bytes),
            Binaries::ByteStrings => self.write_byte_string(bytes),
        }
    }
}
