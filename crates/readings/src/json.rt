//! Readings as JSON.

ghost use Rattle.std.specs.Prelude.{◌≡◌, IfOk, IfErr};
ghost use Rattle.readings.specs.Written.{readings_json};

use crate::Readings;
use std::alloc::Global;
use sval_io::VecSink;
use sval_json::{Error, ErrorKind, stream_to_io_write};

/// The JSON of readings, unless memory was wanting.
pub fn to_json(alloc: Global, readings: &Readings) -> Result<Vec<u8>, Error>
    ensures json { IfOk result (λ json. json.items ≡ readings_json readings.now.readings.items) }
    ensures no_memory { IfErr result (λ error. error ≡ ErrorKind.NoMemory) }
{
    let mut sink = VecSink::new(alloc);
    match stream_to_io_write(&mut sink, readings) {
        Ok(()) => Ok(sink.into_vec()),
        Err(error) => Err(error),
    }
}
