//! Pieces of a script's lines, for what prints the lines of a document itself.

ghost use Rattle.std.specs.Prelude.{◌≡◌, ◌≤◌, ◌*◌, ◌++◌, length};
ghost use Rattle.hex.specs.Hex.{encode_lower};
ghost use Rattle.sval_io.specs.Sinks.{WritesAll};

use sval_io::{Sink, SinkError, write_in_place};

/// How many bytes become hex digits at once.
const RUN: usize = 64;

/// Puts the hex digits of some bytes at the front of an array, and gives them.
#[inline(always)]
fn encode<'a>(bytes: &[u8], digits: &'a mut [u8]) -> &'a [u8]
    requires { 2 * length bytes.now ≤ length digits.old }
    ensures { result.now ≡ encode_lower bytes.now }
{
    let front = &mut digits[..2 * bytes.len()];
    let _ = hex::encode_to_slice(bytes, front);
    front
}

/// Writes at most [`RUN`] bytes in hex.
#[inline(always)]
fn write_run<K: Sink>(bytes: &[u8], out: &mut K) -> Result<(), SinkError>
    requires { length bytes.now ≤ 64 }
    ensures { WritesAll result (K.told out.old) (encode_lower bytes.now) (K.told out.new) }
{
    let mut digits = [0u8; 2 * RUN];
    write_in_place(out, encode(bytes, &mut digits))
}

/// Writes bytes in hex, as a script has them: two digits for each, in lower case.
///
/// ```
/// let mut out = VecSink::new(alloc);
/// write_hex(b"a\xff".as_slice(), &mut out)?;
/// assert_eq!(rt; out.as_slice(), b"61ff".as_slice());
/// ```
///
/// # Errors
///
/// Those of the sink. It took a first part of the digits then, and not all.
pub fn write_hex<K: Sink>(bytes: &[u8], out: &mut K) -> Result<(), SinkError>
    ensures { WritesAll result (K.told out.old) (encode_lower bytes.now) (K.told out.new) }
{
    let mut rest = bytes;
    while rest.len() > RUN {
        write_run(&rest[..RUN], out)?;
        rest = &rest[RUN..];
    }
    write_run(rest, out)
}

/// Writes a piece between two others.
///
/// ```
/// let mut out = VecSink::new(alloc);
/// write_between(b"u64 ".as_slice(), b"7".as_slice(), b"\n".as_slice(), &mut out)?;
/// assert_eq!(rt; out.as_slice(), b"u64 7\n".as_slice());
/// ```
///
/// # Errors
///
/// Those of the sink. It took a first part of the three then, and not all.
#[inline(always)]
pub fn write_between<K: Sink>(
    before: &[u8],
    piece: &[u8],
    behind: &[u8],
    out: &mut K,
) -> Result<(), SinkError>
    ensures { WritesAll result (K.told out.old) (before.now ++ (piece.now ++ behind.now)) (K.told out.new) }
{
    write_in_place(out, before)?;
    write_in_place(out, piece)?;
    write_in_place(out, behind)
}
