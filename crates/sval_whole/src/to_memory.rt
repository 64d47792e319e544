//! Values that are checked, and written to memory.

ghost use Rattle.std.specs.Prelude.{string_bytes};
ghost use Rattle.sval_json.specs.declared.style.Variants.TheVariants.{Inside};
ghost use Rattle.sval_whole.specs.WholeTexts.{GivesWholeText, by_text};

use crate::error::WriteError;
use crate::write::write_json_with;
use std::alloc::Global;
use sval_core::{Lent, Value};
use sval_io::VecSink;
use sval_json::Variants;

/// The JSON of a value, as bytes, if its calls are one whole value.
///
/// On `Ok` the bytes are exactly the text of the JSON of the tree that the calls spell, in UTF-8.
///
/// ```
/// let json = to_json_vec(alloc, &value)?;
/// assert_eq!(rt; json.as_slice(), b"[-7,\"a\"]".as_slice());
/// ```
///
/// # Errors
///
/// Those of [`write_json`](crate::write_json) but [`WriteError::Write`], for the same causes; each but
/// [`WriteError::NoMemory`] comes wherever its cause holds, unless memory was wanting. `NoMemory` comes only where memory
/// was wanting to check the calls, or where they are one whole value.
pub fn to_json_vec<'v, V: Value<'v, Lent<'v>>>(
    alloc: Global,
    v: &'v V,
) -> Result<Vec<u8>, WriteError>
    ensures { GivesWholeText Inside (V.emission v.now) (by_text result (λ json. json.items)) }
{
    to_json_vec_with(alloc, v, Variants::Inside)
}

/// The JSON of a value with the variants of enums in this style, as bytes, if its calls are one whole value.
///
/// It answers as [`to_json_vec`] does, which is this call with [`Variants::Inside`].
///
/// ```
/// let json = to_json_vec_with(alloc, &value, Variants::Beside)?;
/// assert_eq!(rt; json.as_slice(), b"[-7,\"a\"]".as_slice());
/// ```
pub fn to_json_vec_with<'v, V: Value<'v, Lent<'v>>>(
    alloc: Global,
    v: &'v V,
    variants: Variants,
) -> Result<Vec<u8>, WriteError>
    ensures { GivesWholeText variants (V.emission v.now) (by_text result (λ json. json.items)) }
{
    let mut sink = VecSink::new(alloc);
    match write_json_with(alloc, &mut sink, v, variants) {
        Ok(()) => Ok(sink.into_vec()),
        Err(error) => Err(error),
    }
}

/// The JSON of a value, as a text, if its calls are one whole value.
///
/// It answers as [`to_json_vec`] does, and takes no more memory.
///
/// ```
/// let json = to_json_string(alloc, &value)?;
/// assert_eq!(rt; json.as_str(), "[-7,\"a\"]");
/// ```
pub fn to_json_string<'v, V: Value<'v, Lent<'v>>>(
    alloc: Global,
    v: &'v V,
) -> Result<String, WriteError>
    ensures { GivesWholeText Inside (V.emission v.now) (by_text result string_bytes) }
{
    to_json_string_with(alloc, v, Variants::Inside)
}

/// The JSON of a value with the variants of enums in this style, as a text, if its calls are one whole value.
///
/// It answers as [`to_json_string`] does, which is this call with [`Variants::Inside`].
///
/// ```
/// let json = to_json_string_with(alloc, &value, Variants::Beside)?;
/// assert_eq!(rt; json.as_str(), "[-7,\"a\"]");
/// ```
pub fn to_json_string_with<'v, V: Value<'v, Lent<'v>>>(
    alloc: Global,
    v: &'v V,
    variants: Variants,
) -> Result<String, WriteError>
    ensures { GivesWholeText variants (V.emission v.now) (by_text result string_bytes) }
{
    let json = to_json_vec_with(alloc, v, variants)?;
    // What is written is UTF-8 (`utf8` of `IsTextOfOneValue`).
    Ok(unsafe { String::from_utf8_unchecked(json) })
}
