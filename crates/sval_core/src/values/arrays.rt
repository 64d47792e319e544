//! Arrays.

ghost use Rattle.sval_label.specs.Calls.{TaggedBegin, TaggedEnd};
ghost use Rattle.sval_core.specs.Law.{Answers};
ghost use Rattle.sval_core.specs.Names.{constant_size_tag, tag_alone};
ghost use Rattle.sval_core.specs.Values.{array_emission};

use crate::stream::Stream;
use crate::value::Value;
use crate::values::names::constant_size;
use crate::values::sequences::{skip_items, stream_seq};
use sval_label::{Lending, Lent, Result};

/// Begins what has a size that its type fixes.
fn begin_constant_size<L: Lending, S: Stream<L>>(stream: &mut S) -> Result
    ensures { Answers S.law result
        (S.standing stream.old) (TaggedBegin (tag_alone constant_size_tag)) (S.standing stream.new) }
{
    stream.tagged_begin(Some(constant_size()), None, None)
}

/// Ends what has a size that its type fixes.
fn end_constant_size<L: Lending, S: Stream<L>>(stream: &mut S) -> Result
    ensures { Answers S.law result
        (S.standing stream.old) (TaggedEnd (tag_alone constant_size_tag)) (S.standing stream.new) }
{
    stream.tagged_end(Some(constant_size()), None, None)
}

/// The sequence of its items, tagged as of a constant size.
impl<'v, T: Value<'v, Lent<'v>>, const N: usize> Value<'v, Lent<'v>> for [T; N] {
    ghost emission = { array_emission T.emission };

    #[tactic(auto, using(crate::proofs::Between::of_between))]
    fn stream<S: Stream<Lent<'v>>>(&'v self, stream: &mut S) -> Result {
        if skip_items::<Lent<'v>, T, S>(stream, self.as_slice()) {
            return Ok(());
        }
        begin_constant_size(stream)?;
        stream_seq(stream, self.as_slice())?;
        end_constant_size(stream)
    }
}
