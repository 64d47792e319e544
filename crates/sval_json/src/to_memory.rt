//! Values written to memory.

ghost use Rattle.std.specs.Prelude.{string_bytes};
ghost use Rattle.sval_json.specs.declared.style.Variants.TheVariants.{Inside};
ghost use Rattle.sval_json.specs.Given.{GivesJson, by_bytes};

use crate::error::Error;
use crate::json_str::JsonString;
use crate::to_io::stream_to_io_write;
use std::alloc::Global;
use sval_core::{Lent, Value};
use sval_io::VecSink;

/// The JSON of a value, as bytes: those that [`stream_to_io_write`] writes for it.
///
/// It trusts that the value's calls are one whole value; `to_json_vec` of `sval_whole` checks that first.
///
/// ```
/// let json = stream_to_vec(alloc, &value)?;
/// assert_eq!(rt; json.as_slice(), b"[-7,\"a\"]".as_slice());
/// ```
///
/// # Errors
///
/// [`InvalidKey`], [`InvalidNumber`] and [`Generic`] come exactly where [`stream_to_io_write`] answers them, unless
/// memory is wanting. [`NoMemory`] may come in place of any answer, except for a value for which nothing is written.
/// Nothing else is answered. Memory is taken for the bytes alone.
///
/// [`InvalidKey`]: crate::ErrorKind::InvalidKey
/// [`InvalidNumber`]: crate::ErrorKind::InvalidNumber
/// [`Generic`]: crate::ErrorKind::Generic
/// [`NoMemory`]: crate::ErrorKind::NoMemory
pub fn stream_to_vec<'v, V: Value<'v, Lent<'v>>>(alloc: Global, v: &'v V) -> Result<Vec<u8>, Error>
    ensures { GivesJson Inside (V.emission v.now) (by_bytes result (λ json. json.items)) }
{
    let mut sink = VecSink::new(alloc);
    match stream_to_io_write(&mut sink, v) {
        Ok(()) => Ok(sink.into_vec()),
        Err(error) => Err(error),
    }
}

/// The JSON of a value, as a text.
///
/// It answers as [`stream_to_vec`] does, and takes no more memory. The bytes are UTF-8, so nothing looks through them
/// again. It trusts that the value's calls are one whole value; `to_json_string` of `sval_whole` checks that first.
///
/// ```
/// let json = stream_to_string(alloc, &value)?;
/// assert_eq!(rt; json.as_str(), "[-7,\"a\"]");
/// ```
///
/// # Errors
///
/// Those of [`stream_to_vec`].
pub fn stream_to_string<'v, V: Value<'v, Lent<'v>>>(
    alloc: Global,
    v: &'v V,
) -> Result<String, Error>
    ensures { GivesJson Inside (V.emission v.now) (by_bytes result string_bytes) }
{
    let json = stream_to_vec(alloc, v)?;
    // What is written is UTF-8 (`utf8` of `GivesJson`).
    Ok(unsafe { String::from_utf8_unchecked(json) })
}

/// The JSON of a value, as a text that is a value again, which the writer writes as it is.
///
/// It answers as [`stream_to_string`] does, by the same errors, and trusts the value's calls as that does.
///
/// ```
/// let json = stream_to_json_str(alloc, &value)?;
/// assert!(rt; json.as_json_str().is_text("[-7,\"a\"]"));
/// ```
pub fn stream_to_json_str<'v, V: Value<'v, Lent<'v>>>(
    alloc: Global,
    v: &'v V,
) -> Result<JsonString, Error>
    ensures { GivesJson Inside (V.emission v.now) result }
{
    let json = stream_to_string(alloc, v)?;
    Ok(JsonString::boxed(json))
}
