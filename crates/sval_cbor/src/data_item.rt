//! Data items that are written one by one.

ghost use Rattle.std.specs.Prelude.{◌≡◌, ◌++◌, true, false, Ok};
ghost use Rattle.sval_io.specs.Sinks.{WritesAll};
ghost use Rattle.sval_json.specs.Digits.{has_digit};
ghost use Rattle.sval_json.specs.Number.{normal, sign};
ghost use Rattle.sval_cbor.specs.Cbor.{string, integer};
ghost use Rattle.sval_cbor.specs.SeenNumber.{IsUnsigned};
ghost use Rattle.sval_cbor.specs.SeenWriter.{seen_normal};
ghost use Rattle.sval_cbor.specs.Streamed.{AnswersDue};
ghost use Rattle.sval_cbor.specs.Writing.{number_bytes};

use crate::error::CborError;
use crate::head::{write_head, write_integer, write_text};
use crate::number::{NormalForm, normal, whole};
use sval_io::{Sink, SinkError, write_all};

/// Writes a text string: its head, and its bytes (RFC 8949, section 3.1).
///
/// ```
/// let mut sink = VecSink::new(alloc);
/// write_text_string(&mut sink, "a")?;
/// assert_eq!(rt; sink.as_slice(), b"\x61a".as_slice());
/// ```
///
/// # Errors
///
/// Those of the sink, after a first part of the bytes.
#[inline(always)]
pub fn write_text_string<K: Sink>(out: &mut K, text: &str) -> Result<(), SinkError>
    ensures { WritesAll result (K.told out.old) (string 3 text.now) (K.told out.new) }
{
    write_text(out, text.as_bytes())
}

/// Writes an integer, in as few bytes as hold it.
///
/// # Errors
///
/// Those of the sink, after a first part of the bytes.
#[inline(always)]
pub fn write_i64<K: Sink>(out: &mut K, number: i64) -> Result<(), SinkError>
    ensures { WritesAll result (K.told out.old) (integer number) (K.told out.new) }
{
    if number < 0 {
        return write_head(out, 1, (-1 - number) as u64);
    }
    write_head(out, 0, number as u64)
}

/// Writes the number that a text stands for, as [`stream_to_cbor`](crate::stream_to_cbor) writes a text under `NUMBER`.
///
/// ```
/// let mut sink = VecSink::new(alloc);
/// write_number(&mut sink, "18446744073709551616")?;
/// assert_eq!(rt; sink.as_slice(), b"\xc2\x49\x01\0\0\0\0\0\0\0\0".as_slice());
/// assert_eq!(rt; write_number(&mut sink, "1.5").err(), Some(CborError::NotInteger));
/// ```
///
/// # Errors
///
/// - [`CborError::Number`] comes where the text is no number, and doesn't begin so that it is null.
/// - [`CborError::NotInteger`] comes where it is one with a fraction or an exponent, or not from -2^127 to 2^128-1.
/// - [`CborError::Write`] and [`CborError::NoMemory`] come from the sink, after a first part of the bytes.
///
/// After the first two the sink tells what it told before.
pub fn write_number<K: Sink>(out: &mut K, text: &str) -> Result<(), CborError>
    ensures { AnswersDue result (K.told out.old) (number_bytes false (normal text.now)) (K.told out.new) }
{
    match normal(text.as_bytes()) {
        Some(found) => write_normal(out, found),
        None => Err(CborError::Number),
    }
}

/// Writes a number in normal form, or `null`.
fn write_normal<K: Sink>(out: &mut K, found: NormalForm<'_>) -> Result<(), CborError>
    requires { IsUnsigned found }
    ensures { AnswersDue result (K.told out.old) (number_bytes false (Ok (seen_normal found.entry))) (K.told out.new) }
{
    match found {
        NormalForm::Null => Ok(write_all(out, b"\xf6")?),
        NormalForm::Number { negative, unsigned } => write_signed(out, negative, unsigned),
    }
}

/// Writes a number that is whole, by whether it begins with `-` and what follows that.
fn write_signed<K: Sink>(out: &mut K, negative: bool, unsigned: &[u8]) -> Result<(), CborError>
    requires { has_digit unsigned.now ≡ true }
    ensures { AnswersDue result (K.told out.old) (number_bytes false (Ok (sign negative ++ unsigned.now)))
        (K.told out.new) }
{
    match whole(negative, unsigned) {
        Some(number) => Ok(write_integer(out, number)?),
        None => Err(CborError::NotInteger),
    }
}
