//! Values written to a sink for text, which has no kind of error of its own.

ghost use Rattle.sval_json.specs.declared.style.Variants.TheVariants.{Inside};
ghost use Rattle.sval_json.specs.ToFmt.{StreamsToFmt};

use crate::error::Error;
use crate::to_io::stream_to_io_write;
use sval_core::{Lent, Value};
use sval_io::Sink;

/// Streams a value to a sink as JSON, as [`stream_to_io_write`] does, but that a failure of the sink is of no kind of
/// its own. It trusts the value's calls as that does.
///
/// ```
/// let mut sink = VecSink::new(alloc);
/// stream_to_fmt_write(&mut sink, &value)?;
/// assert_eq!(rt; sink.as_slice(), b"[-7,\"a\"]".as_slice());
/// ```
///
/// # Errors
///
/// They come as there, with [`ErrorKind::Generic`](crate::ErrorKind::Generic) in place of
/// [`ErrorKind::IO`](crate::ErrorKind::IO): it comes where the value itself refuses, after all that its calls write, or
/// where the sink's count of faults rose.
#[tactic(auto, using(crate::proofs::ToFmt::done_to_fmt, crate::proofs::ToFmt::stopped_to_fmt))]
pub fn stream_to_fmt_write<'v, K: Sink, V: Value<'v, Lent<'v>>>(
    out: &mut K,
    v: &'v V,
) -> Result<(), Error>
    ensures { StreamsToFmt Inside (V.emission v.now) result (K.told out.old) (K.told out.new) }
{
    match stream_to_io_write(out, v) {
        Ok(()) => Ok(()),
        Err(error) => Err(error.without_io()),
    }
}
