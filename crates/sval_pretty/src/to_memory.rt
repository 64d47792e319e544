//! Pretty JSON in memory.

ghost use Rattle.std.specs.Prelude.{◌≡◌, IfOk, IfErr};
ghost use Rattle.sval_pretty.specs.Layout.{pretty};

use crate::to_sink::write_pretty;
use std::alloc::Global;
use sval_io::{SinkError, VecSink};

/// The pretty text of a JSON text, as bytes: those that [`write_pretty`] writes.
///
/// ```
/// let pretty = pretty_to_vec(alloc, b"{\"a\":[1,{}]}".as_slice())?;
/// assert_eq!(rt; pretty.as_slice(), b"{\n  \"a\": [\n    1,\n    {}\n  ]\n}".as_slice());
/// ```
///
/// # Errors
///
/// [`SinkError::NoMemory`] comes where there is no memory for the bytes, and nothing else does.
pub fn pretty_to_vec(alloc: Global, json: &[u8]) -> Result<Vec<u8>, SinkError>
    ensures pretty { IfOk result (λ out. out.items ≡ pretty json.now) }
    ensures want { IfErr result (λ why. why ≡ SinkError.NoMemory) }
{
    let mut sink = VecSink::new(alloc);
    match write_pretty(&mut sink, json) {
        Ok(()) => Ok(sink.into_vec()),
        Err(why) => Err(why),
    }
}
