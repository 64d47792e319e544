//! Bytes with room behind them.

ghost use Rattle.std.specs.Prelude.{◌≡◌, ◌≤◌, ◌-◌, ◌++◌, None, IfSome, OnErr, OnOk, OnSome, [], length, take, drop};
ghost use Rattle.std.specs.Result.{result_ok};
ghost use Rattle.hex.specs.Hex.{decode_of};
ghost use Rattle.sval_script.specs.FieldValues.{Decodes};
ghost use Rattle.sval_script.specs.SeenBytes.{KeepsFront};

use crate::field::LineError;
use std::alloc::Global;
use std::marker::Model;

/// How many bytes of room are made at once, behind those that are needed.
const ROOM: usize = 512;

/// The length of the longest text that is copied at once.
const TEXT: usize = 16;

/// Bytes one after another, with room behind them: bytes of no meaning, so that what is decoded there needs no clearing
/// of its own.
#[derive(Drop)]
pub(crate) struct Bytes {
    /// The bytes, and the room behind them.
    room: Vec<u8>,
    /// How many bytes there are.
    len: usize,
    /// How many hex digits the next long field is expected to have.
    expected_digits: usize,
}

impl Model for Bytes {
    ghost use Rattle.std.specs.Prelude.{◌≤◌, length, take};
    ghost use Rattle.sval_script.specs.SeenBytes.{SeenBytes};

    ghost Value = { SeenBytes };

    ghost view = { λ bytes. record { items = take bytes.len bytes.room.items } };

    ghost invariant = { λ bytes. bytes.len ≤ length bytes.room.items };
}

/// Makes a vector at least as long as that, with room for more where it was shorter.
#[inline(always)]
fn lengthen(room: &mut Vec<u8>, len: usize) -> Result<(), LineError>
    ensures same { KeepsFront room.old.items room.new.items }
    ensures long { OnOk result (len ≤ length room.new.items) }
    ensures no_memory { ¬ (result ≡ Err LineError.Bad) }
{
    if room.len() < len {
        room.resize(len.saturating_add(ROOM), 0)?;
    }
    Ok(())
}

/// The first 16 bytes, if there are as many.
#[inline(always)]
fn first_sixteen(bytes: &[u8]) -> Option<[u8; 16]>
    ensures { IfSome result (λ text. text ≡ take 16 bytes.now) }
{
    if bytes.len() < TEXT {
        return None;
    }
    let mut text = [0; 16];
    text.copy_from_slice(&bytes[..TEXT]);
    Some(text)
}

impl Bytes {
    /// No bytes, which take no memory yet.
    pub(crate) fn new(alloc: Global) -> Bytes
        ensures { result.items ≡ [] }
    {
        Bytes {
            room: Vec::new(alloc),
            len: 0,
            expected_digits: 0,
        }
    }

    /// How many they are.
    pub(crate) fn len(&self) -> usize
        ensures { result ≡ length self.now.items }
    {
        self.len
    }

    /// All of them.
    pub(crate) fn as_slice(&self) -> &[u8]
        ensures { result.now ≡ self.now.items }
    {
        &self.room[..self.len]
    }

    /// How many hex digits the next long field is expected to have.
    #[inline(always)]
    pub(crate) fn expected_digits(&self) -> usize {
        self.expected_digits
    }

    /// Expects `count` hex digits in the next long field.
    #[inline(always)]
    pub(crate) fn expect_digits(&mut self, count: usize)
        ensures { self.new.items ≡ self.old.items }
    {
        self.expected_digits = count;
    }

    /// Puts the bytes that hex digits spell behind the others.
    #[inline(always)]
    pub(crate) fn decode(&mut self, digits: &[u8]) -> Result<(), LineError>
        ensures decoded { OnOk result (Decodes digits.now self.old.items self.new.items) }
        ensures bad { result ≡ Err LineError.Bad → result_ok (decode_of digits.now) ≡ None }
        ensures same { OnErr result (self.new.items ≡ self.old.items) }
    {
        let end = self.len + digits.len() / 2;
        lengthen(&mut self.room, end)?;
        hex::decode_to_slice(digits, &mut self.room[self.len..end]).map_err(|_| LineError::Bad)?;
        self.len = end;
        Ok(())
    }

    /// Puts the first `len` of these bytes behind the others.
    #[inline(always)]
    pub(crate) fn put_text(&mut self, text: [u8; 16], len: usize) -> Result<(), LineError>
        requires { len ≤ 16 }
        ensures stored { OnOk result (self.new.items ≡ self.old.items ++ take len text) }
        ensures no_memory { ¬ (result ≡ Err LineError.Bad) }
    {
        let end = self.len + TEXT;
        lengthen(&mut self.room, end)?;
        self.room[self.len..end].copy_from_slice(&text);
        self.len += len;
        Ok(())
    }

    /// The bytes from a place on, and others behind them, if they are at most 16 and there is room for as many.
    #[inline(always)]
    pub(crate) fn text_from(&self, start: usize) -> Option<[u8; 16]>
        requires { start ≤ length self.now.items }
        ensures short { OnSome result (length self.now.items - start ≤ 16) }
        ensures text { IfSome result (λ text.
            take (length self.now.items - start) text ≡ drop start self.now.items) }
    {
        if self.len == start {
            return Some([0; 16]);
        }
        if self.len - start > TEXT {
            return None;
        }
        first_sixteen(&self.room[start..])
    }
}
