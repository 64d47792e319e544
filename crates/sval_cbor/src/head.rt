//! Heads, and what is written behind them.

ghost use Rattle.std.specs.Prelude.{◌≡◌, ◌<◌, ◌≤◌, ◌++◌, length};
ghost use Rattle.sval_io.specs.Sinks.{WritesAll};
ghost use Rattle.sval_cbor.specs.Cbor.{head_bytes, without_zero_bytes, string, bignum, integer, row_head};
ghost use Rattle.sval_cbor.specs.SeenWriter.{seen_integer};

use crate::integer::Integer;
use crate::style::Lengths;
use sval_io::{Sink, SinkError, write_all, write_in_place};

/// The major type of byte strings.
const BYTE_STRING: u8 = 2;

/// The major type of texts.
const TEXT: u8 = 3;

/// How many bytes a number of 128 bits takes with its tag and its head.
const BIGNUM_ROOM: usize = 18;

/// Writes a head: a major type and a number, in as few bytes as hold the number (RFC 8949, sections 3 and 4.2.1). Most
/// are one byte.
#[inline(always)]
#[tactic(auto, unfolding(crate::specs::Cbor::head_bytes))]
pub(crate) fn write_head<K: Sink>(sink: &mut K, major: u8, number: u64) -> Result<(), SinkError>
    requires { major < 8 }
    ensures { WritesAll result (K.told sink.old) (head_bytes major number) (K.told sink.new) }
{
    if number < 24 {
        return write_in_place(sink, &[major * 32 + number as u8]);
    }
    write_wide_head(sink, major, number)
}

/// Writes a head of more than one byte.
#[inline(never)]
#[tactic(auto, unfolding(crate::specs::Cbor::head_bytes))]
fn write_wide_head<K: Sink>(sink: &mut K, major: u8, number: u64) -> Result<(), SinkError>
    requires small { major < 8 }
    requires wide { 24 ≤ number }
    ensures { WritesAll result (K.told sink.old) (head_bytes major number) (K.told sink.new) }
{
    let first = major * 32;
    if number < 0x100 {
        write_all(sink, &[first + 24, number as u8])
    } else if number < 0x1_0000 {
        let b = (number as u16).to_be_bytes();
        write_all(sink, &[first + 25, b[0], b[1]])
    } else if number < 0x1_0000_0000 {
        let b = (number as u32).to_be_bytes();
        write_all(sink, &[first + 26, b[0], b[1], b[2], b[3]])
    } else {
        let b = number.to_be_bytes();
        write_all(
            sink,
            &[first + 27, b[0], b[1], b[2], b[3], b[4], b[5], b[6], b[7]],
        )
    }
}

/// Writes what begins an array or a map of this many items or pairs, by its major type.
pub(crate) fn write_row_head<K: Sink>(
    sink: &mut K,
    lengths: Lengths,
    major: u8,
    number: u64,
) -> Result<(), SinkError>
    requires { major < 8 }
    ensures { WritesAll result (K.told sink.old) (row_head lengths major number) (K.told sink.new) }
{
    match lengths {
        Lengths::Indefinite => write_all(sink, &[32 * major + 31]),
        Lengths::Definite => write_head(sink, major, number),
    }
}

/// The bytes from the first that is not 0 on.
#[tactic(auto, unfolding(crate::specs::Cbor::without_zero_bytes))]
fn without_zero_bytes(bytes: &[u8]) -> &[u8]
    ensures bytes { result.now ≡ without_zero_bytes bytes.now }
    ensures short { length result.now ≤ length bytes.now }
{
    let mut rest = bytes;
    while let Some((0, after)) = rest.split_first() {
        rest = after;
    }
    rest
}

/// Writes a number of up to 128 bits as a byte string under this tag (RFC 8949, section 3.4.3), as one piece.
fn write_bignum<K: Sink>(sink: &mut K, tag: u8, number: u128) -> Result<(), SinkError>
    requires { tag < 24 }
    ensures { WritesAll result (K.told sink.old) (bignum tag number) (K.told sink.new) }
{
    let bytes = number.to_be_bytes();
    let short = without_zero_bytes(&bytes);
    let mut piece = [0; BIGNUM_ROOM];
    piece[0] = 0xc0 + tag;
    piece[1] = 0x40 + short.len() as u8;
    let end = 2 + short.len();
    piece[2..end].copy_from_slice(short);
    write_all(sink, &piece[..end])
}

/// Writes a whole number.
pub(crate) fn write_integer<K: Sink>(sink: &mut K, number: Integer) -> Result<(), SinkError>
    ensures { WritesAll result (K.told sink.old) (integer (seen_integer number)) (K.told sink.new) }
{
    match number {
        Integer::Unsigned(number) => match u64::try_from(number) {
            Ok(small) => write_head(sink, 0, small),
            Err(_) => write_bignum(sink, 2, number),
        },
        Integer::Negative(number) => match u64::try_from(number) {
            Ok(small) => write_head(sink, 1, small),
            Err(_) => write_bignum(sink, 3, number),
        },
    }
}

/// Writes a text: its head, and its bytes as they are.
#[inline(always)]
pub(crate) fn write_text<K: Sink>(sink: &mut K, text: &[u8]) -> Result<(), SinkError>
    ensures { WritesAll result (K.told sink.old) (string 3 text.now) (K.told sink.new) }
{
    write_head(sink, TEXT, text.len() as u64)?;
    write_in_place(sink, text)
}

/// Writes a byte string: its head, and its bytes.
pub(crate) fn write_byte_string<K: Sink>(sink: &mut K, bytes: &[u8]) -> Result<(), SinkError>
    ensures { WritesAll result (K.told sink.old) (string 2 bytes.now) (K.told sink.new) }
{
    write_head(sink, BYTE_STRING, bytes.len() as u64)?;
    write_all(sink, bytes)
}

/// Writes two pieces, one after the other.
fn write_both<K: Sink>(sink: &mut K, first: &[u8], second: &[u8]) -> Result<(), SinkError>
    ensures { WritesAll result (K.told sink.old) (first.now ++ second.now) (K.told sink.new) }
{
    write_all(sink, first)?;
    write_all(sink, second)
}

/// Writes a text that is two pieces, one after the other.
pub(crate) fn write_joined<K: Sink>(
    sink: &mut K,
    first: &[u8],
    second: &[u8],
) -> Result<(), SinkError>
    ensures { WritesAll result (K.told sink.old) (string 3 (first.now ++ second.now)) (K.told sink.new) }
{
    write_head(sink, TEXT, first.len() as u64 + second.len() as u64)?;
    write_both(sink, first, second)
}
