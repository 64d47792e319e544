//! Reads an input from a source to its end.

ghost use Rattle.std.specs.Prelude.{◌≡◌, ◌<◌, ◌≤◌, ◌^◌, IfOk, IfErr, OnOk, vec_len};
ghost use Rattle.sval_io.specs.WholeInputs.{HasRoomBehind, ReadsWhole, StopsReading};

use crate::input_error::InputError;
use crate::source::Source;
use std::alloc::{AllocError, Global};

/// The greatest number of bytes that are read of an input.
pub const INPUT_LIMIT: usize = 1 << 24;

/// How many bytes are asked for at a time.
const CHUNK: usize = 1 << 16;

/// Makes room behind the first bytes of a vector, if there is none.
fn make_room(bytes: &mut Vec<u8>, filled: usize) -> Result<(), AllocError>
    requires within { filled ≤ vec_len bytes.old }
    requires more { filled < 2 ^ 24 }
    requires short { vec_len bytes.old ≤ 2 ^ 24 }
    ensures { OnOk result (HasRoomBehind filled bytes.old.items bytes.new.items) }
{
    if filled < bytes.len() {
        return Ok(());
    }
    bytes.resize(INPUT_LIMIT.min(filled + CHUNK), 0)
}

/// Reads a source to its end, and no further than one byte past 16,777,216. On `Ok` the bytes are all that it had left.
///
/// ```
/// let mut input = MemSource::new(b"null\n");
/// assert_eq!(rt; read_input(alloc, &mut input)?.as_slice(), b"null\n".as_slice());
/// ```
///
/// # Errors
///
/// [`InputError::ReadFault`] comes only where the source failed, and wherever its count of faults moved.
/// [`InputError::TooLong`] comes only where there were more than 16,777,216 bytes. One byte more than that was taken.
/// After a fault at most 16,777,216 bytes were taken. [`InputError::NoMemory`] comes where there was no memory for what
/// is read, and only where fewer than 16,777,216 bytes were taken: an input that was read to the limit is not told as
/// want of memory.
pub fn read_input<I: Source>(alloc: Global, input: &mut I) -> Result<Vec<u8>, InputError>
    ensures ok { IfOk result (λ bytes. ReadsWhole (I.told input.old) bytes.items (I.told input.new)) }
    ensures err { IfErr result (λ why. StopsReading why (I.told input.old) (I.told input.new)) }
{
    let mut bytes = Vec::new(alloc);
    let mut filled = 0;
    while filled < INPUT_LIMIT {
        make_room(&mut bytes, filled)?;
        let count = input.read(&mut bytes[filled..])?;
        if count == 0 {
            bytes.truncate(filled);
            return Ok(bytes);
        }
        filled += count;
    }
    let mut probe = [0u8; 1];
    match input.read(&mut probe)? {
        0 => Ok(bytes),
        _ => Err(InputError::TooLong),
    }
}
