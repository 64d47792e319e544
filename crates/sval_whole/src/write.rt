//! Values that are checked, and written to a sink.

ghost use Rattle.sval_check.specs.Checks.{IsOneValue};
ghost use Rattle.sval_json.specs.declared.style.Variants.TheVariants.{Inside};
ghost use Rattle.sval_whole.specs.Whole.{WritesJson};

use crate::error::WriteError;
use std::alloc::Global;
use sval_check::check;
use sval_core::{Lent, Value};
use sval_io::Sink;
use sval_json::{Variants, stream_to_io_write_with};

/// Writes a value to a sink as JSON, without white space, if its calls are one whole value.
///
/// On `Ok` the sink took exactly the text of the JSON of the tree that the calls spell. Where raw texts and
/// identifiers in it are what their tags promise, the text denotes the one value that this JSON means, and no other.
///
/// The value is streamed into the check and then into the writer. One that is surely whole is only asked in place of
/// the check, as [`check`] says. Memory of `alloc` is taken for the check alone, as [`check`] takes it.
///
/// ```
/// let mut sink = VecSink::new(alloc);
/// write_json(alloc, &mut sink, &value)?;
/// assert_eq!(rt; sink.as_slice(), b"[-7,\"a\"]".as_slice());
/// ```
///
/// # Errors
///
/// - [`WriteError::BadCall`] comes where no value goes on with one of the calls, and names the first of these.
/// - [`WriteError::Refused`] comes where all calls can be completed, and the value refuses after them.
/// - [`WriteError::Unfinished`] comes where all calls can be completed, the value doesn't refuse, and the calls are
///   not one whole value.
///
/// These three leave the sink as it was.
///
/// - [`WriteError::InvalidKey`] and [`WriteError::InvalidNumber`] come where the calls are one whole value that has
///   no JSON for that cause, the first from left to right. The sink took exactly what is written up to there.
///
/// The five exclude each other, and each comes wherever its cause holds, unless the sink declined or memory was wanting.
///
/// - [`WriteError::Write`] comes only where the sink's count of faults rose, and never where it tells room for the
///   text.
/// - [`WriteError::NoMemory`] comes where memory was wanting to check the calls, which leaves the sink as it was, or
///   where the sink's count of wants rose.
///
/// After `Write`, and after `NoMemory` where that count rose, the sink took a first part of the text and not all of
/// it. No count ever falls. The sink isn't flushed.
pub fn write_json<'v, K: Sink, V: Value<'v, Lent<'v>>>(
    alloc: Global,
    out: &mut K,
    v: &'v V,
) -> Result<(), WriteError>
    ensures { WritesJson Inside (V.emission v.now) K.told result out.old out.new }
{
    write_json_with(alloc, out, v, Variants::Inside)
}

/// Writes a value to a sink as JSON with the variants of enums in this style, if its calls are one whole value.
///
/// It answers as [`write_json`] does, which is this call with [`Variants::Inside`].
///
/// ```
/// let mut sink = VecSink::new(alloc);
/// write_json_with(alloc, &mut sink, &value, Variants::Beside)?;
/// assert_eq!(rt; sink.as_slice(), b"[-7,\"a\"]".as_slice());
/// ```
pub fn write_json_with<'v, K: Sink, V: Value<'v, Lent<'v>>>(
    alloc: Global,
    out: &mut K,
    v: &'v V,
    variants: Variants,
) -> Result<(), WriteError>
    ensures { WritesJson variants (V.emission v.now) K.told result out.old out.new }
{
    match check(alloc, v) {
        Ok(()) => write_checked(out, v, variants),
        Err(found) => Err(WriteError::from(found)),
    }
}

/// Writes a value whose calls are one whole value.
fn write_checked<'v, K: Sink, V: Value<'v, Lent<'v>>>(
    out: &mut K,
    v: &'v V,
    variants: Variants,
) -> Result<(), WriteError>
    requires { IsOneValue (V.emission v.now) }
    ensures { WritesJson variants (V.emission v.now) K.told result out.old out.new }
{
    match stream_to_io_write_with(out, v, variants) {
        Ok(()) => Ok(()),
        Err(error) => Err(WriteError::from(error.kind())),
    }
}
