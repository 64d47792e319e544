//! Binaries as sequences of numbers.

ghost use Rattle.std.specs.Prelude.{true, false};
ghost use Rattle.sval_label.specs.Calls as call;
ghost use Rattle.sval_core.specs.Law.{Emits};
ghost use Rattle.sval_core.specs.Values.{makes};
ghost use Rattle.sval_lower.specs.Lower.{lower, byte_calls};

use sval_core::{Lending, Result, Stream};

/// A binary as a sequence of numbers: `seq_begin` with its size.
pub fn binary_begin<L: Lending, S: Stream<L>>(stream: &mut S, size: Option<usize>) -> Result
    ensures { Emits S.law result (S.standing stream.old)
        (makes (lower (call.BinaryBegin size))) (S.standing stream.new) }
{
    stream.seq_begin(size)
}

/// The fragment as a computed one.
pub fn binary_fragment<L: Lending, S: Stream<L>>(stream: &mut S, fragment: &[u8]) -> Result
    ensures { Emits S.law result (S.standing stream.old)
        (makes (lower (call.BinaryFragment true fragment.now))) (S.standing stream.new) }
{
    stream.binary_fragment_computed(fragment)
}

/// Each byte as an item: `seq_value_begin`, `u8`, `seq_value_end`.
#[tactic(auto, using(crate::proofs::ByteItems::of_bytes))]
pub fn binary_fragment_computed<L: Lending, S: Stream<L>>(stream: &mut S, fragment: &[u8]) -> Result
    ensures { Emits S.law result (S.standing stream.old)
        (makes (lower (call.BinaryFragment false fragment.now))) (S.standing stream.new) }
{
    for byte in fragment {
        byte_item(stream, *byte)?;
    }
    Ok(())
}

/// A binary's sequence ends: `seq_end`.
pub fn binary_end<L: Lending, S: Stream<L>>(stream: &mut S) -> Result
    ensures { Emits S.law result (S.standing stream.old) (makes (lower call.BinaryEnd)) (S.standing stream.new) }
{
    stream.seq_end()
}

/// A byte as an item of a sequence.
fn byte_item<L: Lending, S: Stream<L>>(stream: &mut S, byte: u8) -> Result
    ensures { Emits S.law result (S.standing stream.old) (makes (byte_calls byte)) (S.standing stream.new) }
{
    stream.seq_value_begin()?;
    stream.u8(byte)?;
    stream.seq_value_end()
}
