//! Bytes as binaries.
#![tactic(auto, unfolding(sval_core::specs::Law::emits, sval_core::specs::Law::then_emits))]

ghost use Rattle.std.specs.Prelude.{◌≡◌};
ghost use Rattle.sval_core.specs.Law.{Emits};
ghost use Rattle.sval_core.specs.Values.{binary_emission};
ghost use Rattle.sval.specs.Seen.{slice_bytes};

use sval_core::{Lent, Result, Stream, Value};

/// Bytes as a binary: its size, one fragment and its end.
///
/// A slice of bytes by itself is a sequence of numbers. One that is made within a value's `stream` lives no longer than
/// that call, so it goes to the stream by `value_computed`.
///
/// ```
/// assert_eq!(rt; BinarySlice::new(b"\x00\xff").as_slice(), [0u8, 255].as_slice());
/// ```
#[derive(Clone, Copy, Debug)]
pub struct BinarySlice<'a> {
    binary: &'a [u8],
}

impl<'a> BinarySlice<'a> {
    /// The binary of these bytes.
    pub fn new(binary: &'a [u8]) -> Self
        ensures { slice_bytes result ≡ binary.now }
    {
        BinarySlice { binary }
    }

    /// The bytes.
    pub fn as_slice(&self) -> &'a [u8]
        ensures { result.now ≡ slice_bytes self.now }
    {
        self.binary
    }
}

/// Streams bytes as a binary in one borrowed fragment: what [`BinarySlice`] streams, of bytes that a value holds.
///
/// # Errors
///
/// It refuses at the first call that the stream refuses.
pub fn stream_binary<'v, S: Stream<Lent<'v>>>(stream: &mut S, bytes: &'v [u8]) -> Result
    ensures { Emits S.law result (S.standing stream.old) (binary_emission bytes.now) (S.standing stream.new) }
{
    if stream.skip_value() {
        return Ok(());
    }
    stream.binary_begin(Some(bytes.len()))?;
    stream.binary_fragment(bytes)?;
    stream.binary_end()
}

impl<'v, 'a> Value<'v, Lent<'v>> for BinarySlice<'a> {
    ghost use Rattle.sval.specs.Emissions.{slice_emission};

    ghost emission = { slice_emission };

    fn stream<S: Stream<Lent<'v>>>(&'v self, stream: &mut S) -> Result {
        stream_binary(stream, self.binary)
    }
}
