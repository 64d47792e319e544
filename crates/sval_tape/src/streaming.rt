//! Tapes that are streamed as they are read.

ghost use Rattle.sval_tape.specs.Streaming.{TellsStreamed};

use crate::step::{Step, make_first};
use crate::tape::TapeError;
use sval_core::{Lent, Stream};

/// Reads a tape and makes its calls, each as soon as it is read.
///
/// It does in one pass what [`Tape::read`](crate::Tape::read) and then streaming the tape do in two. So where the bytes
/// are no tape, the stream has taken the calls before the bad place by then. The inner result is the stream's: after
/// `Ok(Err(_))` it refused a call, and the bytes behind that call were not read.
///
/// ```
/// stream_tape(bytes, &mut stream)??;
/// ```
///
/// # Errors
///
/// [`TapeError::Bad`] with the offset of the first byte behind the calls that could be read.
pub fn stream_tape<'v, S: Stream<Lent<'v>>>(
    bytes: &'v [u8],
    stream: &mut S,
) -> Result<sval_core::Result, TapeError>
    ensures { TellsStreamed S.law bytes.now (S.standing stream.old) result (S.standing stream.new) }
{
    let mut rest = bytes;
    'calls: while !rest.is_empty() {
        match make_first(rest, stream) {
            Step::Taken(behind) => rest = behind,
            Step::Refused(refusal) => return Ok(Err(refusal)),
            Step::Bad => {
                return Err(TapeError::Bad {
                    at: bytes.len() - rest.len(),
                });
            }
        }
    }
    Ok(Ok(()))
}
