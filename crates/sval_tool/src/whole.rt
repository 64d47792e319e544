//! An input, read whole.

ghost use Rattle.std.specs.Prelude.{◌≡◌, ◌≤◌, IfOk, IfErr, OnOk, vec_len};
ghost use Rattle.sval_lines.specs.SourceLines.{HasLineCause};
ghost use Rattle.sval_tool.specs.WholeSources.{HasPlaceBehind, TakesWhole};

use std::alloc::{AllocError, Global};
use sval_io::Source;
use sval_lines::LineError;

/// How many bytes are asked for at a time.
const CHUNK: usize = 1 << 16;

/// Makes room behind the first bytes of a vector, if there is none.
fn make_room(bytes: &mut Vec<u8>, filled: usize) -> Result<(), AllocError>
    requires { filled ≤ vec_len bytes.old }
    ensures { OnOk result (HasPlaceBehind filled bytes.old.items bytes.new.items) }
{
    if filled < bytes.len() {
        return Ok(());
    }
    bytes.resize(bytes.len() + CHUNK, 0)
}

/// Reads a source to its end. Nothing but memory limits how many bytes that are.
///
/// ```
/// let mut input = MemSource::new(b"null\n");
/// assert_eq!(rt; read_whole(alloc, &mut input)?.as_slice(), b"null\n".as_slice());
/// ```
///
/// # Errors
///
/// [`LineError::ReadFault`] comes only where the source failed, and [`LineError::NoMemory`] where there was no memory for
/// what it has. Nothing else comes.
pub fn read_whole<I: Source>(alloc: Global, source: &mut I) -> Result<Vec<u8>, LineError>
    ensures ok { IfOk result (λ bytes. TakesWhole (I.told source.old) bytes.items (I.told source.new)) }
    ensures err { IfErr result (λ why. HasLineCause why 0 (I.told source.old) (I.told source.new)) }
{
    let mut bytes = Vec::new(alloc);
    let mut filled = 0;
    loop {
        make_room(&mut bytes, filled)?;
        let count = source.read(&mut bytes[filled..])?;
        if count == 0 {
            bytes.truncate(filled);
            return Ok(bytes);
        }
        filled += count;
    }
}
