//! Bytes and numbers in digits.

ghost use Rattle.std.specs.Prelude.{◌≡◌, ◌≤◌, ◌*◌, length};
ghost use Rattle.std.specs.Fmt.{signed_decimal};
ghost use Rattle.hex.specs.Hex.{encode_lower};
ghost use Rattle.sval_label.specs.SeenIndex.{seen_index};
ghost use Rattle.sval_io.specs.Sinks.{WritesAll};

use itoa::Buffer;
use sval_core::Index;
use sval_io::{Sink, SinkError, write_all};

/// How many bytes become digits at once.
const PIECE: usize = 64;

/// Puts the hex digits of some bytes at the front of an array, and gives them.
fn encode<'a>(bytes: &[u8], digits: &'a mut [u8]) -> &'a [u8]
    requires { 2 * length bytes.now ≤ length digits.old }
    ensures { result.now ≡ encode_lower bytes.now }
{
    let front = &mut digits[..2 * bytes.len()];
    let _ = hex::encode_to_slice(bytes, front);
    front
}

/// Writes a few bytes in hex.
fn write_piece<K: Sink>(sink: &mut K, bytes: &[u8]) -> Result<(), SinkError>
    requires { length bytes.now ≤ 64 }
    ensures { WritesAll result (K.told sink.old) (encode_lower bytes.now) (K.told sink.new) }
{
    let mut digits = [0u8; 2 * PIECE];
    write_all(sink, encode(bytes, &mut digits))
}

/// Writes bytes in hex, piece by piece.
pub(crate) fn write_hex<K: Sink>(sink: &mut K, bytes: &[u8]) -> Result<(), SinkError>
    ensures { WritesAll result (K.told sink.old) (encode_lower bytes.now) (K.told sink.new) }
{
    let mut rest = bytes;
    while rest.len() > PIECE {
        write_piece(sink, &rest[..PIECE])?;
        rest = &rest[PIECE..];
    }
    write_piece(sink, rest)
}

/// The number of an index, which is in the range of an `i64` or of a `u64`.
fn number_of(index: &Index) -> i128
    ensures { result ≡ (seen_index index.now).number }
{
    match index.to_i64() {
        Some(number) => i128::from(number),
        None => i128::from(index.to_u64().unwrap_or(0)),
    }
}

/// The digits of an index.
pub(crate) fn format_index<'a>(buffer: &'a mut Buffer, index: &Index) -> &'a str
    ensures { result.now ≡ signed_decimal (seen_index index.now).number }
{
    buffer.format(number_of(index))
}
