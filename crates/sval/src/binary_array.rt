//! Arrays of bytes as binaries.
#![tactic(auto, unfolding(sval_core::specs::Law::emits, sval_core::specs::Law::then_emits))]

use crate::binary_slice::stream_binary;
use std::fmt;
use sval_core::{Lent, Result, Stream, Tag, Value, tags};

/// Bytes of a number that their type fixes, as a binary that is tagged so.
///
/// An array of bytes by itself is a sequence of numbers that is tagged so. One that is made within a value's `stream`
/// lives no longer than that call, so it goes to the stream by `value_computed`.
///
/// ```
/// assert_eq!(rt; BinaryArray::new(&[0, 255]).as_slice().len(), 2);
/// ```
#[derive(Clone, Copy)]
pub struct BinaryArray<'a, const N: usize> {
    array: &'a [u8; N],
    bytes: &'a [u8],
    ghost same: { bytes.now ≡ array.now },
}

ghost use Rattle.std.specs.Prelude.{◌≡◌};
ghost use Rattle.sval_label.specs.SeenTags.{seen_ref_tag};
ghost use Rattle.sval_core.specs.Names.{constant_size_tag};

impl<'a, const N: usize> BinaryArray<'a, N> {
    ghost use Rattle.sval.specs.Seen.{array_bytes};

    /// The binary of these bytes.
    pub fn new(binary: &'a [u8; N]) -> Self
        ensures { array_bytes result ≡ binary.now }
    {
        BinaryArray {
            array: binary,
            bytes: binary,
        }
    }

    /// The bytes.
    pub fn as_slice(&self) -> &'a [u8; N]
        ensures { result.now ≡ array_bytes self.now }
    {
        self.array
    }
}

impl<'a, const N: usize> fmt::Debug for BinaryArray<'a, N> {
    fn fmt<W: fmt::Write>(&self, f: &mut fmt::Formatter<W>) -> fmt::Result {
        fmt::Debug::fmt(&self.bytes, f)
    }
}

/// The tag of what has a size that its type fixes.
fn constant_size() -> &'static Tag
    ensures { seen_ref_tag result ≡ constant_size_tag }
{
    &tags::CONSTANT_SIZE
}

impl<'v, 'a, const N: usize> Value<'v, Lent<'v>> for BinaryArray<'a, N> {
    ghost use Rattle.sval.specs.Emissions.{byte_array_emission};

    ghost emission = { byte_array_emission };

    fn stream<S: Stream<Lent<'v>>>(&'v self, stream: &mut S) -> Result {
        stream.tagged_begin(Some(constant_size()), None, None)?;
        stream_binary(stream, self.bytes)?;
        stream.tagged_end(Some(constant_size()), None, None)
    }
}
