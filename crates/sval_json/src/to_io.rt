//! Values written to a sink.

ghost use Rattle.sval_json.specs.declared.style.Variants.TheVariants.{Inside};
ghost use Rattle.sval_json.specs.Written.{StreamsJson};

use crate::error::{Error, ErrorKind};
use crate::style::Variants;
use crate::writer::JsonWriter;
use sval_core::{Lent, Value};
use sval_io::Sink;

/// Streams a value to a sink as JSON, without white space.
///
/// On `Ok` it appended what the steps of `specs/Steps.antt` write for the value's calls. Where these calls spell a
/// tree, that is the text of the tree's JSON, however the calls cut its texts. Where raw texts and identifiers in it
/// are what their tags promise, the text denotes the one value that this JSON means, and no other.
///
/// It trusts that the calls are one whole value: of one that forgets an end it writes broken JSON, and answers `Ok`.
/// `write_json` of `sval_whole` checks them first.
///
/// ```
/// let mut sink = VecSink::new(alloc);
/// stream_to_io_write(&mut sink, &value)?;
/// assert_eq!(rt; sink.as_slice(), b"[-7,\"a\"]".as_slice());
/// ```
///
/// # Errors
///
/// [`ErrorKind::InvalidKey`] and [`ErrorKind::InvalidNumber`] come where a step refuses a call for that cause, after
/// all that the steps write up to there; where the calls spell a tree, it has no JSON for that cause, and what was
/// written begins the text of a tree that differs from it only in keys and numbers that are none.
/// [`ErrorKind::Generic`] comes where the value itself refuses, after all that its calls write. Each of the three
/// always comes where it is so, unless a count of the sink rose.
///
/// [`ErrorKind::IO`] comes only where the sink's count of faults rose, and never where the sink tells room for all that
/// the steps write. [`ErrorKind::NoMemory`] comes only where its count of wants rose. After either the sink took a
/// first part of that and not all, and neither comes where the steps write nothing. No count ever falls. This call
/// takes no memory itself, and doesn't flush the sink.
pub fn stream_to_io_write<'v, K: Sink, V: Value<'v, Lent<'v>>>(
    out: &mut K,
    v: &'v V,
) -> Result<(), Error>
    ensures { StreamsJson Inside (V.emission v.now) result (K.told out.old) (K.told out.new) }
{
    stream_to_io_write_with(out, v, Variants::Inside)
}

/// Streams a value to a sink as JSON, with the variants of enums in this style.
///
/// It answers as [`stream_to_io_write`] does, which is this call with [`Variants::Inside`]. On `Ok` it appended what
/// the steps of `specs/Steps.antt` write for the value's calls in this style. `write_json_with` of `sval_whole` checks
/// these calls first.
///
/// ```
/// let mut sink = VecSink::new(alloc);
/// stream_to_io_write_with(&mut sink, &value, Variants::Beside)?;
/// assert_eq!(rt; sink.as_slice(), b"[-7,\"a\"]".as_slice());
/// ```
pub fn stream_to_io_write_with<'v, K: Sink, V: Value<'v, Lent<'v>>>(
    out: &mut K,
    v: &'v V,
    variants: Variants,
) -> Result<(), Error>
    ensures { StreamsJson variants (V.emission v.now) result (K.told out.old) (K.told out.new) }
{
    let mut writer = JsonWriter::new(out, variants);
    match v.stream(&mut writer) {
        Ok(()) => Ok(()),
        Err(_) => Err(writer.error()),
    }
}
