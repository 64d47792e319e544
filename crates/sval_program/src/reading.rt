//! Reads a script from a source to its end.

ghost use Rattle.std.specs.Prelude.{◌≡◌, IfOk, IfErr, OnErr};
ghost use Rattle.sval_io.specs.WholeInputs.{StopsReading};
ghost use Rattle.sval_io.specs.Sources.{GivesNothing};
ghost use Rattle.sval_program.specs.Inputs.{GivesPart, HasRead};

use std::alloc::Global;
use sval_io::{INPUT_LIMIT, InputError, Source, SourceError};
use sval_script::ScriptReader;

/// How many bytes are asked for at a time.
const CHUNK: usize = 1 << 16;

/// Reads a part of a script into the buffer, and gives it to the reader. Answers how many bytes it has.
fn read_part<I: Source>(
    input: &mut I,
    buffer: &mut [u8],
    reader: &mut ScriptReader,
) -> Result<usize, SourceError>
    ensures ok { IfOk result (λ count.
        GivesPart count (I.told input.old) buffer.new (I.told input.new) reader.old reader.new) }
    ensures err { OnErr result (GivesNothing (I.told input.old) (I.told input.new)) }
{
    let count = input.read(buffer)?;
    reader.push(&buffer[..count]);
    Ok(count)
}

/// Reads a script from a source to its end, and no further than one byte past 16,777,216. What is kept of it is what
/// the reader keeps.
///
/// ```
/// let mut input = MemSource::new(b"bool true\n");
/// let script = read_script(alloc, &mut input)?.finish()?;
/// assert_eq!(rt; script.line_count(), 1);
/// ```
///
/// # Errors
///
/// [`InputError::ReadFault`] comes only where the source failed, and wherever its count of faults moved.
/// [`InputError::TooLong`] comes only where there were more bytes. One more byte was taken then.
/// [`InputError::NoMemory`] comes where there was no memory to read into, and leaves the source as it was, since
/// nothing is read before; where there was none for the script, the reader says so at its end. After a fault at most
/// 16,777,216 bytes were taken.
pub fn read_script<I: Source>(alloc: Global, input: &mut I) -> Result<ScriptReader, InputError>
    ensures ok { IfOk result (λ reader. HasRead (I.told input.old) reader (I.told input.new)) }
    ensures err { IfErr result (λ why. StopsReading why (I.told input.old) (I.told input.new)) }
    ensures want { IfErr result (λ why. why ≡ InputError.NoMemory → input.new ≡ input.old) }
{
    let mut reader = ScriptReader::new(alloc);
    let mut buffer = vec![in alloc; 0; CHUNK]?;
    let mut taken = 0;
    while taken < INPUT_LIMIT {
        let room = CHUNK.min(INPUT_LIMIT - taken);
        let count = read_part(input, &mut buffer[..room], &mut reader)?;
        if count == 0 {
            return Ok(reader);
        }
        taken += count;
    }
    let mut probe = [0u8; 1];
    match input.read(&mut probe)? {
        0 => Ok(reader),
        _ => Err(InputError::TooLong),
    }
}
